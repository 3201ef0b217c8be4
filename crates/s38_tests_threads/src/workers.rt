//! Runs on threads, over machines that are told what to answer.

#[cfg(test)]
mod given;
#[cfg(test)]
mod meeting;
#[cfg(test)]
mod runs;
