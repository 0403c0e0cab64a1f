//! Programs, granted or refused by the rules, through public calls alone.
#![tactic(auto)]

#[cfg(test)]
mod calls;
#[cfg(test)]
mod classes;
#[cfg(test)]
mod lines;
#[cfg(test)]
mod shape_faults;
#[cfg(test)]
mod side_faults;
#[cfg(test)]
mod texts;
