// Each refusal of each call of the book, in each state of a bay: proved to be safe, and run.
#![tactic(auto)]

#[cfg(test)]
mod asking;
#[cfg(test)]
mod giving;
#[cfg(test)]
mod opening;
#[cfg(test)]
mod questions;
#[cfg(test)]
mod sample;
#[cfg(test)]
mod shut;
#[cfg(test)]
mod spending;
#[cfg(test)]
mod steps;
#[cfg(test)]
mod textbook;
