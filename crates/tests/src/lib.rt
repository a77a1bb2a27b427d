//! The rules against examples: vaults, and what no script can say of tables and of sheets.
#![tactic(auto)]

#[cfg(test)]
mod sheets;
#[cfg(test)]
mod tables;
#[cfg(test)]
mod vaults;
