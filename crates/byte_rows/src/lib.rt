// Rows of a byte's multiples, which many products by it are read from.
#![tactic(auto)]

ghost use Rattle.std.specs.Prelude.{◌≡◌};
ghost use Rattle.fields.specs.Byte.{xtimes, bytes};
ghost use Rattle.byte_rows.specs.Row.{multiples};

// A byte and every product of it: a point with the row that products by it are read from. Who has the row makes it of that.
#[derive(Drop)]
pub struct ByteRow {
    pub byte: u8,
    pub products: [u8; 256],
    pub ghost are_multiples: { products ≡ multiples byte },
}

impl ByteRow {
    pub fn new(byte: u8) -> ByteRow
        ensures { result.byte ≡ byte }
    {
        ByteRow {
            byte,
            products: multiples(byte),
        }
    }

    pub fn product(&self, by: u8) -> u8
        ensures { result ≡ bytes.mul self.now.byte by }
    {
        self.products[by as usize]
    }
}

// Every product of a byte. Those by 2^k and more are those by less, with the product by 2^k added.
pub fn multiples(a: u8) -> [u8; 256]
    ensures { result ≡ multiples a }
{
    let mut row = [0u8; 256];
    let mut doubled = a;
    let mut size = 1;
    // The size doubles, so no range counts it.
    while size < 256 {
        // One half of the row is read and the other written, so by number.
        for i in 0..size {
            row[size + i] = row[i] ^ doubled;
        }
        doubled = xtime(doubled);
        size = 2 * size;
    }
    row
}

// A byte times x.
fn xtime(a: u8) -> u8
    ensures { result ≡ xtimes a }
{
    (a << 1) ^ ((a >> 7) * 0x1b)
}
