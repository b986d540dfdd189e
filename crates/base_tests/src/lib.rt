//! Tests of the crates under the rules: each public call once, with ample memory, and what no clause says. A crate
//! with tests is proved twice, so they stand here and not beside what they call.
#![tactic(auto)]

#[cfg(test)]
mod domains;
#[cfg(test)]
mod files;
#[cfg(test)]
mod headers;
#[cfg(test)]
mod patterns;
#[cfg(test)]
mod publishing;
#[cfg(test)]
mod response_headers;
#[cfg(test)]
mod urls;
#[cfg(test)]
mod urls_and_hosts;
#[cfg(test)]
mod values;
#[cfg(test)]
mod wildcards;
