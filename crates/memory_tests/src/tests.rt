mod face_tables;
mod faces;
mod steps;
