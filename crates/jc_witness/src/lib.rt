//! Witnesses: clients that link with the old release of a library and fail with the new one.
#![tactic(auto)]

mod class_plans;
mod collision_plans;
mod exposed_plans;
mod exposing;
mod handed_plans;
mod initializers;
mod member_plans;
mod planned_files;
pub mod planner;
mod plans;
mod receiver;
pub mod short_names;
pub mod witness;
pub mod witnessed;
