// A write of a job, before it goes into the book. Kept beside `Request::Write`, which is asked for and not yet held.

#[derive(Clone, Copy)]
pub struct Written<V> {
    pub line: u32,
    pub value: V,
}
