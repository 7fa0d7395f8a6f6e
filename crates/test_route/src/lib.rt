//! Tests of routes.
#![tactic(auto)]

#[cfg(test)]
mod plain;
#[cfg(test)]
mod routes;
