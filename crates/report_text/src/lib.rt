//! The report of URLs: what is written of each once its runs are over.
//!
//! `specs/Report.antt` has its lines. It stands on batch_text for batches, on js_interp for outcomes, on proxy_list and
//! bad_proxy_table for proxies and their order, on pac_names and on utf16_text.
#![tactic(auto)]

mod blocks;
mod draft;
mod fault;

pub use blocks::{End, UrlEnd, report};
