// What a job asks for next.
use calls::ending::Ending;

#[derive(Clone, Copy)]
pub enum Request<V> {
    Read { line: u32 },
    Write { line: u32, value: V },
    End(Ending),
}
