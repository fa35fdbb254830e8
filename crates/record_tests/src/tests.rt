mod bounds;
mod first_format;
mod many;
mod numbers;
mod random;
mod records;
mod runs;
mod samples;
