mod barriers;
mod faults;
mod samples;
mod stops;
