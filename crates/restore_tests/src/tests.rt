mod first_format;
mod restoring;
