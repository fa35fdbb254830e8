mod entries;
mod files;
mod maps;
mod open_files;
mod pairs;
mod pipes;
