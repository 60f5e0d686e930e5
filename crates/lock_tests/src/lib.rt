//! Tables of lock modes, resources, a lock table and who waits for whom: the printed tables and worked meetings of owners.
#![tactic(auto)]

#[cfg(test)]
mod modes;
#[cfg(test)]
mod resources;
#[cfg(test)]
mod table;
#[cfg(test)]
mod waits;
