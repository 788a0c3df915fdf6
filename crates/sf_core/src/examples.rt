//! Examples of the definitions. Each function does nothing; its contract is the result.

pub mod assertions;
pub mod double_segments;
pub mod machine;
pub mod numbered;
pub mod setting_up;
pub mod whole;
