#![tactic(auto)]

// Cases that are run, with what they answer and write compared.

#[cfg(test)]
mod line_faults;
#[cfg(test)]
mod play;
#[cfg(test)]
mod print_outs;
#[cfg(test)]
mod refusals;
#[cfg(test)]
mod settings;
#[cfg(test)]
mod shift;
#[cfg(test)]
mod twice;
