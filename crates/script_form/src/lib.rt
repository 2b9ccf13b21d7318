//! The configuration and the script, read from the bytes of the input, exactly or to their first fault.
//!
//! - [`read_config`] reads the configuration, which stands before the first line that is exactly `%%`.
//! - [`read_script`] reads the lines behind it, and [`read_front`] those before its first fault. What stands in a
//!   request's body is read by whoever executes it.
//! - [`decimal_within`] reads a number as clients and sizes are written.
//! - [`too_large`] says whether the input passes a limit.
#![tactic(auto)]

mod config;
mod decimal;
pub mod laws;
mod lines;
mod member;
mod request;
mod script;

pub use config::{Config, ConfigFault, ConfigRefusal, Requests, WarmSetting, read_config};
pub use decimal::decimal_within;
pub use lines::too_large;
pub use script::{
    Front, Line, LineFault, LineName, Script, ScriptRefusal, What, read_front, read_script,
};
