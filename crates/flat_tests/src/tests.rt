mod loading;
mod memory;
mod turns;
