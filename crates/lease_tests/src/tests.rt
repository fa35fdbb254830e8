mod accesses;
mod refusals;
mod runs;
mod samples;
mod stores;
