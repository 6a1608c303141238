//! The tests, and the helpers of several of them.
mod of_checkpoints;
mod of_dcp;
mod of_drm;
mod of_long_lists;
mod of_stops;
mod of_sweeps;
mod rows;
