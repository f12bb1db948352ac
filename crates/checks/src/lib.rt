// Examples of every layer, and of every refusal: each is proved to be safe, and run.
#![tactic(auto)]

#[cfg(test)]
mod amounts;
#[cfg(test)]
mod days;
#[cfg(test)]
mod faults;
#[cfg(test)]
mod piles;
#[cfg(test)]
mod writing;
