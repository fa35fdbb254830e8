mod formats;
mod refusals;
mod runs;
mod samples;
mod shape_disk;
