// A side's plan as it is lent: its spans, by chunk. `starts` says where each chunk's spans begin, and where all end; a span has the place of its first
// entry, one past that of its last, and the local number of its column. Nothing is known of them before a call has checked them.
#[derive(Clone, Copy)]
pub struct Spans<'a> {
    pub starts: &'a [u32],
    pub lo: &'a [u32],
    pub hi: &'a [u32],
    pub local: &'a [u32],
}
