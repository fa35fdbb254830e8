//! Which process is taken next, and where a process's row is.
ghost use Rattle.std.specs.Prelude.{◌≡◌, ◌≢◌, ◌<◌, List, length, IfNone, IfSome, All, None};
ghost use Rattle.std.specs.List.{filter, list_any};
ghost use Rattle.std.specs.Option.{option_map};
ghost use Rattle.group_defs.specs.Group.{Group, is_running};
ghost use Rattle.group_defs.specs.Standing.{State};
ghost use Rattle.group_defs.specs.Valid.{GroupIsValid, OutValid};
ghost use Rattle.group_parts.specs.Kept.{StandsFor};
ghost use Rattle.group_kernel.specs.Calls.{HasOnlyServedTables};
ghost use Rattle.group_kernel.specs.Held.{FileFacesOfFiles, kept_in, pid_at, seen};
ghost use Rattle.group_kernel.specs.Placed.{is_running_row};
ghost use Rattle.group_kernel.specs.Readiness.{is_ready_row, next_in};
ghost use Rattle.group_kernel.specs.SeenTables.{AllSeenFit};
ghost use Rattle.run_defs.specs.Legal.{is_unleased, next_pid, ready};
ghost use Rattle.run_defs.specs.Progress.{Lease};
ghost use Rattle.tables.specs.Rising.{Rise};

use crate::group_tables::{GroupTables, is_running};
use crate::row::Row;
use tables::find_in;

fn any_runs(rows: &[Row]) -> bool
    ensures { result ≡ list_any is_running_row rows.now }
{
    rows.iter().any(|row| is_running(row))
}

impl GroupTables {
    // Of the rows whose process is here and ready the first with a pid above the last one taken, else the first.
    fn first_ready(&self, taken: u32) -> Option<usize>
        requires fits { AllSeenFit (seen self.now) }
        requires out { OutValid self.now.io.out }
        ensures { result ≡ next_in (is_ready_row (seen self.now)) taken self.now.rows.items 0
            None }
    {
        let mut least = None;
        for (place, row) in self.rows.iter().enumerate() {
            if self.is_ready(row) {
                if row.pid > taken {
                    return Some(place);
                }
                if least.is_none() {
                    least = Some(place);
                }
            }
        }
        least
    }

    /// The row of the process to be taken: of those that are here and ready, the one with the least pid above the last one
    /// taken, else the one with the least pid.
    pub fn next_ready(&self, taken: u32) -> Option<usize>
        requires fits { AllSeenFit (seen self.now) }
        requires out { OutValid self.now.io.out }
        ensures within { IfSome result (λ place. place < length self.now.rows.items) }
        ensures next { (s : State) → (leases : List Lease)
            → StandsFor leases (kept_in (seen self.now)) s.group → GroupIsValid s.group
            → HasOnlyServedTables s.group.frame → FileFacesOfFiles (seen self.now)
            → next_pid taken (filter (is_unleased leases) (ready s))
            ≡ option_map (pid_at (seen self.now)) result }
    {
        self.first_ready(taken)
    }

    /// Whether a process runs, here or on lease.
    pub fn any_running(&self) -> bool
        ensures { (leases : List Lease) → (g : Group) → StandsFor leases (kept_in (seen self.now)) g
            → result ≡ list_any is_running g.frame.procs }
    {
        any_runs(&self.rows)
    }

    /// The row of a process.
    pub fn place_of(&self, pid: u32) -> Option<usize>
        requires { Rise (λ row. row.pid) self.now.rows.items }
        ensures within { IfSome result (λ place. place < length self.now.rows.items) }
        ensures some { IfSome result (λ place. pid_at (seen self.now) place ≡ pid) }
        ensures none { IfNone result (All (λ row. row.pid ≢ pid) self.now.rows.items) }
    {
        find_in(&self.rows, u64::from(pid))
    }
}
