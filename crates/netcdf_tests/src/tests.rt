mod climate;
mod expecting;
mod joining;
mod made;
mod places;
mod refusals;
mod seen;
mod widths;
