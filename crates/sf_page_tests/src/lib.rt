//! Tests of what a page shows, by the public call of sf_page.
//!
//! - `pages`: pages with texts that look like markup, and with each kind of what is drawn.
#![tactic(auto)]

#[cfg(test)]
mod pages;
