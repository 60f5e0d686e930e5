//! Paths evaluated over maps in memory, as tables: what they find, what they ask for and how often they read the map.
//! The rows' answers and requests are worked by hand; beside other programs paths are evaluated in path_rows and call_scripts.
#![tactic(auto)]

#[cfg(test)]
mod documents;
#[cfg(test)]
mod finds;
#[cfg(test)]
mod requests;
