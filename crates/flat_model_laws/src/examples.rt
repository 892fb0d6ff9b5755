//! Worked examples, each computed from the definitions.

pub mod audits;
pub mod files;
pub mod lines;
pub mod logs;
pub mod outputs;
pub mod paths;
pub mod traces;
pub mod values;
