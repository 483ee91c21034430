// The reader of turn lists, and route jobs done alone, for a program in another language to time and compare.
#![tactic(auto)]

ghost use Rattle.std.specs.Prelude.{◌≡◌};
ghost use Rattle.script.specs.Numbers.{number_of};
ghost use Rattle.bench_abi.specs.Sums.{item_sum, list_sum, number_or_none};

use calls::call::Call;
use script::listing::Fault;
use script::number::number;
use script::turns::Turns;

pub mod routes_alone;

// The numbers of a call together, or the number of a fault.
fn sum_of_item(item: Result<Call, Fault>) -> u64
    ensures { result ≡ item_sum item }
{
    match item {
        Ok(Call::Start { seat, order }) => {
            let front = u64::from(seat) + u64::from(order.kind) + u64::from(order.a);
            front + u64::from(order.b) + u64::from(order.c) + u64::from(order.d)
        }
        Ok(Call::Step { seat }) => u64::from(seat),
        Ok(Call::Withdraw { seat }) => u64::from(seat),
        Ok(Call::Look { line }) => u64::from(line),
        Err(fault) => u64::from(fault.number()),
    }
}

// All numbers of a turn list together, within 64 bits. A list that is too long has none: kept 0, since C takes no Option.
#[unsafe(no_mangle)]
pub extern "C" fn list_sum(bytes: &[u8]) -> u64
    ensures { result ≡ list_sum bytes.now }
{
    let Ok(turns) = Turns::try_from(bytes) else {
        return 0;
    };
    turns.fold(0, |sum: u64, item| sum.wrapping_add(sum_of_item(item)))
}

// The number that a word is, or the largest of 64 bits: kept a number, since C takes no Option.
#[unsafe(no_mangle)]
pub extern "C" fn word_number(word: &[u8]) -> u64
    ensures { result ≡ number_or_none (number_of word.now) }
{
    number(word).map_or(u64::MAX, u64::from)
}
