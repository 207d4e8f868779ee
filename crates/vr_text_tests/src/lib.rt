//! Tests of the crates that read and write texts: devices, JSON values, models, files of TSPLIB, generated models,
//! checks and reports of searches. They ask what `vr_io`, `vr_json`, `vr_read`, `vr_tsplib`, `vr_gen`, `vr_printed`,
//! `vr_check` and `vr_watch` make public. The tests have a crate of their own, so that the crates that they test are
//! proved once.
#![tactic(auto)]

#[cfg(test)]
mod checked;
#[cfg(test)]
mod devices;
#[cfg(test)]
mod models;
#[cfg(test)]
mod tsplib;
#[cfg(test)]
mod values;
#[cfg(test)]
mod watchers;
