// What is run for the URLs of a batch.
use batch_text::Batch;
use js_interp::Entry;
use js_scope::Program;

/// A script, a batch of URLs, and what the runs for its URLs are for, in their order.
#[derive(Drop)]
pub struct Work {
    pub program: Program,
    pub batch: Batch,
    pub entries: Vec<Entry>,
}
