// Tests of all that finds a form, and of reading one back, on worked examples and on damaged input.
#![tactic(auto)]

#[cfg(test)]
mod form;
#[cfg(test)]
mod least;
#[cfg(test)]
mod lent;
#[cfg(test)]
mod reading;
#[cfg(test)]
mod stable_colours;
#[cfg(test)]
mod worked;
