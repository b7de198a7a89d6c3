// Worked examples over orders, lists of kinds, bands, pairs, features, terms, codes, cases, trials, files and texts: all of them tests, to
// be read first.
#![tactic(auto)]

#[cfg(test)]
mod answered;
#[cfg(test)]
mod banded;
#[cfg(test)]
mod codes;
#[cfg(test)]
mod declared;
#[cfg(test)]
mod descriptions;
#[cfg(test)]
mod held;
#[cfg(test)]
mod lists;
#[cfg(test)]
mod memory;
#[cfg(test)]
mod narrowed;
#[cfg(test)]
mod pairs;
#[cfg(test)]
mod printed;
#[cfg(test)]
mod scanned;
#[cfg(test)]
mod set;
#[cfg(test)]
mod tried;
