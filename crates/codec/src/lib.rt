// The nine octets of a superframe block reservation, read and written; the rate lookup; the parameter check.
#![tactic(auto)]

ghost use Rattle.std.specs.Prelude.{◌<◌, ◌≡◌, [], ◌∷◌, leb, Ok, Err};
ghost use Rattle.refusal.specs.Refusals.{Tells};
ghost use Rattle.octets.specs.Lists.{every};
ghost use Rattle.octets.specs.Refusals.{first_of};
ghost use Rattle.codec.specs.NineOctets.{bits, address_of, block_with, bad_code, bad_address, misplaced, field_tests, destination_tests, write_tests, octets1to3, bits3to1, octets_of, reading, WriteGives};
ghost use Rattle.codec.specs.Rates.{bad_list, rate_lookup};
ghost use Rattle.codec.specs.Parameters.{by_row, parameter_tests, default_lookup};
ghost use Rattle.codec.specs.Claims.{Claims};
ghost use Rattle.codec.specs.Steps.{Fitting};

use refusal::Refusal;

// ---- the nine octets

// Who is to re-broadcast the reservation: the station of an address, or nobody, which is said by a re-broadcast offset equal to bs. Then
// the three octets before blg's belong to the information field, and are kept as they stand.
#[derive(Clone, Copy)]
pub enum Destination {
    Address(u32),
    NoRebroadcast(u8, u8, u8),
}

// The fields of a reservation.
#[derive(Clone, Copy)]
pub struct Block {
    pub d: Destination,
    pub blg: u32,
    pub roff: u32,
    pub br: u32,
    pub bs: u32,
    pub bo: i32,
    pub bt: u32,
}

// What writing gives: what it says, and the nine octets, all 0 where it is refused.
#[derive(Clone, Copy)]
pub struct Written {
    pub said: Result<(), Refusal>,
    pub octets: [u8; 9],
}

fn bad_code(code: u32) -> bool
    ensures { result ≡ bad_code code }
{
    (code == 7) | (14 <= code)
}

// What br, roff, bs and bo are refused for.
fn judge_fields(b: Block) -> Result<(), Refusal>
    ensures { Tells result (first_of (field_tests b)) tt }
{
    let Block { roff, bs, bo, .. } = b;
    if bad_code(b.br) {
        return Err(Refusal::Code);
    }
    if (roff < 2) | (255 < roff) {
        return Err(Refusal::Roff);
    }
    if (bs < 2) | (255 < bs) {
        return Err(Refusal::Bs);
    }
    if (bo < -127) | (127 < bo) {
        return Err(Refusal::Bo);
    }
    Ok(())
}

// d bits 27-25, which octet 4 holds in its bits 3-1. Octets widen by `as` in this crate: by `u32::from` the fields' equations don't compute.
fn high_bits(octet4: u8) -> u32
    ensures { result ≡ bits 3 1 octet4 }
{
    (octet4 as u32) % 8
}

// The rate code, which octet 6 holds in its bits 4-1.
fn rate_code(octet6: u8) -> u32
    ensures { result ≡ bits 4 1 octet6 }
{
    (octet6 as u32) % 16
}

// The extended reservation ID, which octet 9 holds in its bits 8-4.
fn extended_id(octet9: u8) -> u8
    ensures { result ≡ bits 8 4 octet9 }
{
    octet9 / 8
}

// The address, which octets 1 to 4 hold.
fn address(o1: u8, o2: u8, o3: u8, o4: u8) -> u32
    ensures { result ≡ address_of o1 o2 o3 o4 }
{
    high_bits(o4) * 16777216 + (o1 as u32) * 65536 + (o2 as u32) * 256 + (o3 as u32)
}

// The fields beside a destination, out of octets 4 to 9 one by one.
fn fields(d: Destination, o4: u8, o5: u8, o6: u8, o7: u8, o8: u8, o9: u8) -> Block
    ensures { result ≡ block_with d (0 ∷ 0 ∷ 0 ∷ o4 ∷ o5 ∷ o6 ∷ o7 ∷ o8 ∷ o9 ∷ []) }
{
    Block {
        d,
        blg: (o4 as u32) / 8,
        roff: o5 as u32,
        br: rate_code(o6),
        bs: o7 as u32,
        bo: octets::signed(o8),
        bt: (o9 as u32) % 4,
    }
}

// Reads a reservation. Refused, in this order: 1, 2, 3, 4, 5, 6. The octets are judged before the fields are built, and no octet says a
// number too high for its field. Each kind of destination leaves by an exit of its own, so that it never has to be packed.
pub fn read(octets: &[u8]) -> Result<Block, Refusal>
    ensures { Tells result (reading octets.now).refusal (reading octets.now).block }
{
    if octets.len() != 9 {
        return Err(Refusal::Size);
    }
    if extended_id(octets[8]) != 2 {
        return Err(Refusal::ExtendedId);
    }
    let br = rate_code(octets[5]);
    if bad_code(br) {
        return Err(Refusal::Code);
    }
    if octets[4] < 2 {
        return Err(Refusal::Roff);
    }
    if octets[6] < 2 {
        return Err(Refusal::Bs);
    }
    if octets[7] == 128 {
        return Err(Refusal::Bo);
    }
    if octets[4] == octets[6] {
        let d = Destination::NoRebroadcast(octets[0], octets[1], octets[2]);
        let not_rebroadcast = fields(
            d, octets[3], octets[4], octets[5], octets[6], octets[7], octets[8],
        );
        return Ok(not_rebroadcast);
    }
    let d = Destination::Address(address(octets[0], octets[1], octets[2], octets[3]));
    let addressed = fields(
        d, octets[3], octets[4], octets[5], octets[6], octets[7], octets[8],
    );
    Ok(addressed)
}

fn bad_address(d: Destination) -> bool
    ensures { result ≡ bad_address d }
{
    match d {
        Destination::Address(a) => 134217728 <= a,
        Destination::NoRebroadcast(_, _, _) => false,
    }
}

// Whether an address comes with roff equal to bs, or octets otherwise.
fn misplaced(d: Destination, roff: u32, bs: u32) -> bool
    ensures { result ≡ misplaced d roff bs }
{
    match d {
        Destination::Address(_) => roff == bs,
        Destination::NoRebroadcast(_, _, _) => roff != bs,
    }
}

// What the destination is refused for beside roff and bs.
fn judge_destination(b: Block) -> Result<(), Refusal>
    ensures { Tells result (first_of (destination_tests b)) tt }
{
    if misplaced(b.d, b.roff, b.bs) {
        return Err(Refusal::Destination);
    }
    Ok(())
}

// What a block is refused for.
fn judge_block(b: Block) -> Result<(), Refusal>
    ensures { Tells result (first_of (write_tests b)) tt }
{
    let Block { blg, bt, .. } = b;
    if bad_address(b.d) {
        return Err(Refusal::Address);
    }
    if (31 < blg) | (3 < bt) {
        return Err(Refusal::Field);
    }
    judge_fields(b)?;
    judge_destination(b)
}

// The octets that hold a block whose fields fit, by what its destination puts into octets 1 to 3 and into bits 3-1 of octet 4.
fn store_after(o1: u8, o2: u8, o3: u8, high: u32, b: Block) -> [u8; 9]
    requires { (octets1to3 b.d ≡ o1 ∷ o2 ∷ o3 ∷ []) × (bits3to1 b.d ≡ high) × (high < 8) × Fitting b }
    ensures { result ≡ octets_of b }
{
    [
        o1,
        o2,
        o3,
        (b.blg * 8 + high) as u8,
        b.roff as u8,
        b.br as u8,
        b.bs as u8,
        octets::twos(b.bo),
        (16 + b.bt) as u8,
    ]
}

// The octets that hold a block whose fields fit.
fn store(b: Block) -> [u8; 9]
    requires { Fitting b }
    ensures { result ≡ octets_of b }
{
    match b.d {
        Destination::Address(a) => store_after(
            (a / 65536 % 256) as u8,
            (a / 256 % 256) as u8,
            (a % 256) as u8,
            a / 16777216 % 8,
            b,
        ),
        Destination::NoRebroadcast(o1, o2, o3) => store_after(o1, o2, o3, 0, b),
    }
}

// Writes a reservation. Refused, in this order: 8, 9, 3, 4, 5, 6, 34.
pub fn write(b: Block) -> Written
    ensures { WriteGives b result }
{
    match judge_block(b) {
        Ok(()) => Written {
            said: Ok(()),
            octets: store(b),
        },
        Err(e) => Written {
            said: Err(e),
            octets: [0; 9],
        },
    }
}

// ---- the rates

// Whether no entry is above 60.
fn none_above_60(rates: &[u8]) -> bool
    ensures { result ≡ every (λ x. leb x 60) rates.now }
{
    let mut so_far = true;
    for rate in rates {
        so_far &= *rate <= 60;
    }
    so_far
}

fn bad_list(rates: &[u8]) -> bool
    ensures { result ≡ bad_list rates.now }
{
    if rates.len() != 16 {
        return true;
    }
    let low = none_above_60(rates);
    !low | (rates[7] != 0) | (rates[14] != 0) | (rates[15] != 0)
}

// The rate that a code stands for in a list of sixteen. Refused, in this order: 7, 3. A good list has 0 at 7, 14 and 15, so that the
// entry tells of every code up to 15 whether it has a rate.
pub fn rate(rates: &[u8], code: u32) -> Result<u32, Refusal>
    ensures { Tells result (rate_lookup rates.now code).refusal (rate_lookup rates.now code).number }
{
    if bad_list(rates) {
        return Err(Refusal::RateList);
    }
    if 15 < code {
        return Err(Refusal::Code);
    }
    let entry = rates[code as usize];
    if entry == 0 {
        return Err(Refusal::Code);
    }
    Ok(entry as u32)
}

// ---- the parameters

// A row of the parameters' table.
#[derive(Clone, Copy)]
struct Row {
    minimum: u32,
    maximum: u32,
    default: u32,
    step: u32,
}

// Minimum, maximum, default and step of 1 M1, 2 M2inc, 3 M2limit (004, Table 1-3).
const PARAMETERS: [[u32; 4]; 3] = [[60, 15360, 4500, 60], [1, 256, 2, 1], [1, 65536, 160, 1]];

// The row of a parameter's number. Refused: 22.
fn row_of(number: u32) -> Result<Row, Refusal>
    ensures { result ≡ by_row number Ok (Err Refusal.Parameter) }
{
    if (number < 1) | (3 < number) {
        return Err(Refusal::Parameter);
    }
    let row = PARAMETERS[(number - 1) as usize];
    let [minimum, maximum, default, step] = row;
    Ok(Row {
        minimum,
        maximum,
        default,
        step,
    })
}

// Whether a figure fits its parameter. Refused, in this order: 22, 10.
pub fn parameter(number: u32, figure: u32) -> Result<(), Refusal>
    ensures { Tells result (first_of (parameter_tests number figure)) tt }
{
    let row = row_of(number)?;
    let out = (figure < row.minimum) | (row.maximum < figure);
    // One test and no two: which figures fit, no processor can guess.
    if out | (figure.saturating_sub(row.minimum) % row.step != 0) {
        return Err(Refusal::Figure);
    }
    Ok(())
}

// The default of a parameter. Refused: 22.
pub fn default_figure(number: u32) -> Result<u32, Refusal>
    ensures { Tells result (default_lookup number).refusal (default_lookup number).number }
{
    Ok(row_of(number)?.default)
}

// What this crate claims over its promises.
pub fn claims()
    ensures { Claims }
{}
