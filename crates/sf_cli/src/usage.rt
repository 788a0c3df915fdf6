/// What is said of words that are no command.
pub const USAGE: &str = "usage: smallfoot verify FILE [--workers K]
       smallfoot recheck FILE PROOF
       smallfoot run FILE ENTRY STATE [--steps N] [--waits W]
       smallfoot demo N
       smallfoot replay FILE ENTRY STATE SCHEDULE
       smallfoot journal FILE ENTRY STATE [--steps N] [--waits W]
       smallfoot witness FILE
       smallfoot order FILE
";
