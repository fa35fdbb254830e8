mod commands;
mod lines;
