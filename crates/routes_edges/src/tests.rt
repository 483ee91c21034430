mod made;
mod orders;
mod tables;
mod turns;
