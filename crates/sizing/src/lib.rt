// Rules 10 and 9: size forms and the cover test along every path of every function.
#![tactic(auto)]

mod bounds; // bounds.rt: size bounds where they stand
mod cover; // cover.rt: whether a bound's form covers an entry's
mod forms; // forms.rt: size forms, made of a bound and the forms of its arguments
mod line; // line.rt: a path from its first build or call on
mod paths; // paths.rt: a path before its first build or call
mod routines; // routines.rt: what is read of a function, a build and a call
mod splits; // splits.rt: an alternative along the splits of a path
mod walk; // walk.rt: the walk over a function's code, and over all functions

pub use walk::sizes;
