//! The options of a command that runs a group.
ghost use Rattle.std.specs.Prelude.{◌≡◌};
ghost use Rattle.std.specs.Char.{is_ascii_digit};
ghost use Rattle.std.specs.List.{list_all};
ghost use Rattle.command_words.specs.Options.{most_of as most, setting_of as setting_named, is_number as spells_number, number_in, value_in as value_spelled, joined_in};

/// What an option sets.
#[derive(Clone, Copy, Debug, PartialEq, Eq)]
pub enum Setting {
    /// All turns of the run.
    Turns,
    /// Local steps of a turn.
    Quantum,
    /// Turns between two barriers.
    Every,
}

/// The option's greatest value; the least is 1.
fn most_of(setting: Setting) -> u32
    ensures { result ≡ most setting }
{
    match setting {
        Setting::Turns => 1_000_000,
        Setting::Quantum => 100_000,
        Setting::Every => 10_000,
    }
}

/// The option of this flag.
pub fn setting_of(flag: &str) -> Option<Setting>
    ensures { result ≡ setting_named flag.now }
{
    match flag {
        "--turns" => Some(Setting::Turns),
        "--quantum" => Some(Setting::Quantum),
        "--every" => Some(Setting::Every),
        _ => None,
    }
}

fn are_digits(text: &[u8]) -> bool
    ensures { result ≡ list_all is_ascii_digit text.now }
{
    text.iter().all(|byte| byte.is_ascii_digit())
}

// Whether the text is 1 to 7 decimal digits.
fn is_number(text: &[u8]) -> bool
    ensures { result ≡ spells_number text.now }
{
    1 <= text.len() && text.len() <= 7 && are_digits(text)
}

/// The number that 1 to 7 decimal digits write.
fn number(text: &str) -> Option<u32>
    ensures { result ≡ number_in text.now }
{
    if is_number(text.as_bytes()) {
        text.parse().ok()
    } else {
        None
    }
}

/// The value that the text gives the option: a number within its limits.
pub fn value_of(setting: Setting, text: &str) -> Option<u32>
    ensures { result ≡ value_spelled setting text.now }
{
    match number(text) {
        Some(value) if 1 <= value && value <= most_of(setting) => Some(value),
        _ => None,
    }
}

/// The option and the value of a word like `--turns=5`.
pub fn joined(word: &str) -> Option<(Setting, u32)>
    ensures { result ≡ joined_in word.now }
{
    let (flag, text) = word.split_once('=')?;
    let setting = setting_of(flag)?;
    let value = value_of(setting, text)?;
    Some((setting, value))
}
