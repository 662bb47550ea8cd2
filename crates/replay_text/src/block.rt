//! Text that is collected on the stack, and then appended to a report in one piece.
ghost use Rattle.std.specs.Prelude.{◌≡◌, ◌<◌, ◌≤◌, ◌+◌, ◌/◌, ◌%◌, ◌++◌, ◌∷◌, [], ℕ, List, OnOk, OnErr, take, drop, length};
ghost use Rattle.std.specs.Fmt.{decimal};
ghost use Rattle.byteorder.specs.Endian.{big_bytes};
ghost use Rattle.replay_text.specs.Room.{with_room};

use crate::short::{SHORT, ShortText};
use byteorder::{BigEndian, ByteOrder};
use std::marker::Model;
use wire_base::fields::word_at;
use wire_base::{M, Octets};

/// The room of a block in octets.
const ROOM: usize = 256;

/// The two digits of each number below 100.
static PAIRS: [u8; 200] =
    *b"0001020304050607080910111213141516171819202122232425262728293031323334353637383940414243444546474849\
       5051525354555657585960616263646566676869707172737475767778798081828384858687888990919293949596979899";

/// A comma and each number below 1,000, in four octets each.
static LISTED: [u8; 4000] =
    *b",0  ,1  ,2  ,3  ,4  ,5  ,6  ,7  ,8  ,9  ,10 ,11 ,12 ,13 ,14 ,15 ,16 ,17 ,18 ,19 ,20 ,21 ,22 ,23 \
       ,24 ,25 ,26 ,27 ,28 ,29 ,30 ,31 ,32 ,33 ,34 ,35 ,36 ,37 ,38 ,39 ,40 ,41 ,42 ,43 ,44 ,45 ,46 ,47 \
       ,48 ,49 ,50 ,51 ,52 ,53 ,54 ,55 ,56 ,57 ,58 ,59 ,60 ,61 ,62 ,63 ,64 ,65 ,66 ,67 ,68 ,69 ,70 ,71 \
       ,72 ,73 ,74 ,75 ,76 ,77 ,78 ,79 ,80 ,81 ,82 ,83 ,84 ,85 ,86 ,87 ,88 ,89 ,90 ,91 ,92 ,93 ,94 ,95 \
       ,96 ,97 ,98 ,99 ,100,101,102,103,104,105,106,107,108,109,110,111,112,113,114,115,116,117,118,119\
       ,120,121,122,123,124,125,126,127,128,129,130,131,132,133,134,135,136,137,138,139,140,141,142,143\
       ,144,145,146,147,148,149,150,151,152,153,154,155,156,157,158,159,160,161,162,163,164,165,166,167\
       ,168,169,170,171,172,173,174,175,176,177,178,179,180,181,182,183,184,185,186,187,188,189,190,191\
       ,192,193,194,195,196,197,198,199,200,201,202,203,204,205,206,207,208,209,210,211,212,213,214,215\
       ,216,217,218,219,220,221,222,223,224,225,226,227,228,229,230,231,232,233,234,235,236,237,238,239\
       ,240,241,242,243,244,245,246,247,248,249,250,251,252,253,254,255,256,257,258,259,260,261,262,263\
       ,264,265,266,267,268,269,270,271,272,273,274,275,276,277,278,279,280,281,282,283,284,285,286,287\
       ,288,289,290,291,292,293,294,295,296,297,298,299,300,301,302,303,304,305,306,307,308,309,310,311\
       ,312,313,314,315,316,317,318,319,320,321,322,323,324,325,326,327,328,329,330,331,332,333,334,335\
       ,336,337,338,339,340,341,342,343,344,345,346,347,348,349,350,351,352,353,354,355,356,357,358,359\
       ,360,361,362,363,364,365,366,367,368,369,370,371,372,373,374,375,376,377,378,379,380,381,382,383\
       ,384,385,386,387,388,389,390,391,392,393,394,395,396,397,398,399,400,401,402,403,404,405,406,407\
       ,408,409,410,411,412,413,414,415,416,417,418,419,420,421,422,423,424,425,426,427,428,429,430,431\
       ,432,433,434,435,436,437,438,439,440,441,442,443,444,445,446,447,448,449,450,451,452,453,454,455\
       ,456,457,458,459,460,461,462,463,464,465,466,467,468,469,470,471,472,473,474,475,476,477,478,479\
       ,480,481,482,483,484,485,486,487,488,489,490,491,492,493,494,495,496,497,498,499,500,501,502,503\
       ,504,505,506,507,508,509,510,511,512,513,514,515,516,517,518,519,520,521,522,523,524,525,526,527\
       ,528,529,530,531,532,533,534,535,536,537,538,539,540,541,542,543,544,545,546,547,548,549,550,551\
       ,552,553,554,555,556,557,558,559,560,561,562,563,564,565,566,567,568,569,570,571,572,573,574,575\
       ,576,577,578,579,580,581,582,583,584,585,586,587,588,589,590,591,592,593,594,595,596,597,598,599\
       ,600,601,602,603,604,605,606,607,608,609,610,611,612,613,614,615,616,617,618,619,620,621,622,623\
       ,624,625,626,627,628,629,630,631,632,633,634,635,636,637,638,639,640,641,642,643,644,645,646,647\
       ,648,649,650,651,652,653,654,655,656,657,658,659,660,661,662,663,664,665,666,667,668,669,670,671\
       ,672,673,674,675,676,677,678,679,680,681,682,683,684,685,686,687,688,689,690,691,692,693,694,695\
       ,696,697,698,699,700,701,702,703,704,705,706,707,708,709,710,711,712,713,714,715,716,717,718,719\
       ,720,721,722,723,724,725,726,727,728,729,730,731,732,733,734,735,736,737,738,739,740,741,742,743\
       ,744,745,746,747,748,749,750,751,752,753,754,755,756,757,758,759,760,761,762,763,764,765,766,767\
       ,768,769,770,771,772,773,774,775,776,777,778,779,780,781,782,783,784,785,786,787,788,789,790,791\
       ,792,793,794,795,796,797,798,799,800,801,802,803,804,805,806,807,808,809,810,811,812,813,814,815\
       ,816,817,818,819,820,821,822,823,824,825,826,827,828,829,830,831,832,833,834,835,836,837,838,839\
       ,840,841,842,843,844,845,846,847,848,849,850,851,852,853,854,855,856,857,858,859,860,861,862,863\
       ,864,865,866,867,868,869,870,871,872,873,874,875,876,877,878,879,880,881,882,883,884,885,886,887\
       ,888,889,890,891,892,893,894,895,896,897,898,899,900,901,902,903,904,905,906,907,908,909,910,911\
       ,912,913,914,915,916,917,918,919,920,921,922,923,924,925,926,927,928,929,930,931,932,933,934,935\
       ,936,937,938,939,940,941,942,943,944,945,946,947,948,949,950,951,952,953,954,955,956,957,958,959\
       ,960,961,962,963,964,965,966,967,968,969,970,971,972,973,974,975,976,977,978,979,980,981,982,983\
       ,984,985,986,987,988,989,990,991,992,993,994,995,996,997,998,999";

/// At most 256 octets, modeled as their list.
///
/// A method that writes several octets counts them in a local variable and stores the length once, at its end. If each octet
/// changed the field, the length would be loaded and stored once an octet.
#[derive(Drop)]
pub struct Block {
    room: [u8; ROOM],
    len: usize,
}

impl Model for Block {
    ghost use Rattle.std.specs.Prelude.{List, ℕ, ◌≤◌, take};

    ghost Value = { List ℕ };

    ghost view = { λ b. take b.len b.room };

    ghost invariant = { λ b. b.len ≤ 256 };
}

impl Block {
    /// Creates an empty block.
    pub fn new() -> Self
        ensures { result ≡ [] }
    {
        Block {
            room: [0; ROOM],
            len: 0,
        }
    }

    /// Returns the number of octets.
    fn len(&self) -> usize
        ensures value { result ≡ length self.now }
        ensures fits { result ≤ 256 }
    {
        self.len
    }

    /// Returns the octets as a slice.
    pub fn as_slice(&self) -> &[u8]
        ensures { result.now ≡ self.now }
    {
        &self.room[..self.len]
    }

    /// Appends an octet.
    pub fn push(&mut self, octet: u8)
        requires { length self.old < 256 }
        ensures text { self.new ≡ self.old ++ octet ∷ [] }
        ensures len { length self.new ≡ length self.old + 1 }
    {
        let at = self.len();
        self.len = put(&mut self.room, at, octet);
    }

    /// Appends octets.
    pub fn append(&mut self, text: &[u8])
        requires { length self.old + length text.now ≤ 256 }
        ensures text { self.new ≡ self.old ++ text.now }
        ensures len { length self.new ≡ length self.old + length text.now }
    {
        let at = self.len();
        self.len = put_text(&mut self.room, at, text);
    }

    /// Appends a short text. Always 32 octets of its room are copied: a copy of a fixed size takes less time than one of exactly as
    /// many octets.
    pub fn append_short(&mut self, text: &ShortText)
        requires { length self.old ≤ 224 }
        ensures text { self.new ≡ self.old ++ text.now }
        ensures len { length self.new ≡ length self.old + length text.now }
        ensures few { length self.new ≤ length self.old + 32 }
    {
        let at = self.len();
        self.len = put_front(&mut self.room, at, text.room(), text.len());
    }

    /// Appends the decimal digits of a number.
    pub fn number(&mut self, number: u64)
        requires { length self.old + length (decimal number) ≤ 256 }
        ensures text { self.new ≡ self.old ++ decimal number }
        ensures len { length self.new ≡ length self.old + length (decimal number) }
    {
        let at = self.len();
        self.len = put_number(&mut self.room, at, number);
    }

    /// Appends the decimal digits of a number below 10,000.
    pub fn few(&mut self, number: u16)
        requires small { number < 10000 }
        requires room { length self.old ≤ 252 }
        ensures text { self.new ≡ self.old ++ decimal number }
        ensures len { length self.new ≤ length self.old + 4 }
    {
        let at = self.len();
        self.len = put_few(&mut self.room, at, number);
    }

    /// Appends a comma and the decimal digits of a number below 10,000.
    pub fn listed(&mut self, number: u16)
        requires small { number < 10000 }
        requires room { length self.old ≤ 251 }
        ensures text { self.new ≡ self.old ++ 44 ∷ decimal number }
        ensures len { length self.new ≤ length self.old + 5 }
    {
        let at = self.len();
        self.len = put_listed(&mut self.room, at, number);
    }

    /// Appends the block to a text and empties it, if it has no room for a comma and four digits. Otherwise nothing changes,
    /// nor does it if an allocation fails.
    #[inline(always)]
    pub fn make_room(&mut self, out: &mut Octets) -> M<()>
        ensures ok { OnOk result ((out.new, self.new) ≡ with_room 5 out.old self.old) }
        ensures err { OnErr result ((out.new ≡ out.old) × (self.new ≡ self.old)) }
        ensures full { OnErr result (256 < length self.old + 5) }
        ensures same { OnOk result (out.new ++ self.new ≡ out.old ++ self.old) }
        ensures front { (text : List ℕ) → take (length text) out.old ≡ text → take (length text) out.new ≡ text }
        ensures room { OnOk result (length self.new ≤ 251) }
    {
        self.make_room_for(out, 5)
    }

    /// Does the same for that many octets.
    #[inline(always)]
    pub fn make_room_for(&mut self, out: &mut Octets, size: usize) -> M<()>
        requires { size ≤ 256 }
        ensures ok { OnOk result ((out.new, self.new) ≡ with_room size out.old self.old) }
        ensures err { OnErr result ((out.new ≡ out.old) × (self.new ≡ self.old)) }
        ensures full { OnErr result (256 < length self.old + size) }
        ensures same { OnOk result (out.new ++ self.new ≡ out.old ++ self.old) }
        ensures front { (text : List ℕ) → take (length text) out.old ≡ text → take (length text) out.new ≡ text }
        ensures room { OnOk result (length self.new + size ≤ 256) }
    {
        if self.len > ROOM - size {
            self.flush(out)?;
        }
        Ok(())
    }

    /// Appends the block to a text and empties it. If an allocation fails, nothing changes.
    #[inline(never)]
    fn flush(&mut self, out: &mut Octets) -> M<()>
        ensures ok { OnOk result ((out.new ≡ out.old ++ self.old) × (self.new ≡ [])) }
        ensures err { OnErr result ((out.new ≡ out.old) × (self.new ≡ self.old)) }
    {
        out.append(self.as_slice())?;
        self.len = 0;
        Ok(())
    }
}

/// Writes an octet behind the first `at` octets, and returns how many there are then.
#[tactic(auto, using(std::proofs::lemmas::List::take_more_set))]
fn put(room: &mut [u8; ROOM], at: usize, octet: u8) -> usize
    requires { at < 256 }
    ensures text { take result room.new ≡ take at room.old ++ octet ∷ [] }
    ensures at { result ≡ at + 1 }
{
    room[at] = octet;
    at + 1
}

/// Does the same with a text.
fn put_text(room: &mut [u8; ROOM], at: usize, text: &[u8]) -> usize
    requires { at + length text.now ≤ 256 }
    ensures text { take result room.new ≡ take at room.old ++ text.now }
    ensures at { result ≡ at + length text.now }
{
    let end = at + text.len();
    room[at..end].copy_from_slice(text);
    end
}

/// Does the same with the first `len` octets of a short text's room. All 32 are written, and those behind the first `len` are not
/// counted.
fn put_front(room: &mut [u8; ROOM], at: usize, text: &[u8; SHORT], len: usize) -> usize
    requires short { len ≤ 32 }
    requires room { at + 32 ≤ 256 }
    ensures text { take result room.new ≡ take at room.old ++ take len text.now }
    ensures at { result ≡ at + len }
{
    put_text(room, at, text);
    at + len
}

/// Does the same with the decimal digits of a number.
fn put_number(room: &mut [u8; ROOM], at: usize, number: u64) -> usize
    requires { at + length (decimal number) ≤ 256 }
    ensures text { take result room.new ≡ take at room.old ++ decimal number }
    ensures at { result ≡ at + length (decimal number) }
{
    if number < 10_000 {
        return put_few(room, at, number as u16);
    }
    let end = put_number(room, at, number / 10_000);
    put_four(room, end, (number % 10_000) as u16)
}

/// Does the same with a number below 10,000.
#[tactic(auto, using(crate::proofs::Digits::one_digit, crate::proofs::Digits::two_digits, crate::proofs::Digits::three_digits, crate::proofs::Digits::four_digits))]
fn put_few(room: &mut [u8; ROOM], at: usize, number: u16) -> usize
    requires small { number < 10000 }
    requires room { at + length (decimal number) ≤ 256 }
    ensures text { take result room.new ≡ take at room.old ++ decimal number }
    ensures at { result ≡ at + length (decimal number) }
{
    if number < 10 {
        put(room, at, digit(number))
    } else if number < 100 {
        put_two(room, at, number)
    } else if number < 1000 {
        let end = put(room, at, digit(number / 100));
        put_two(room, end, number % 100)
    } else {
        put_four(room, at, number)
    }
}

/// Does the same with a comma and a number below 10,000.
fn put_listed(room: &mut [u8; ROOM], at: usize, number: u16) -> usize
    requires small { number < 10000 }
    requires room { at + 5 ≤ 256 }
    ensures text { take result room.new ≡ take at room.old ++ 44 ∷ decimal number }
    ensures low { at ≤ result }
    ensures high { result ≤ at + 5 }
{
    if number < 1000 {
        put_short(room, at, number)
    } else {
        let end = put(room, at, b',');
        put_few(room, end, number)
    }
}

/// Does the same with a number below 1,000. All four octets of its text in the table are written, and the spaces at their end are
/// not counted.
fn put_short(room: &mut [u8; ROOM], at: usize, number: u16) -> usize
    requires small { number < 1000 }
    requires room { at + 4 ≤ 256 }
    ensures text { take result room.new ≡ take at room.old ++ 44 ∷ decimal number }
    ensures low { at ≤ result }
    ensures high { result ≤ at + 4 }
{
    let text = word_at(&LISTED, 4 * usize::from(number));
    put_word(room, at, text);
    at + text_len(number)
}

/// Returns the length of a comma and a number below 1,000, without a branch.
fn text_len(number: u16) -> usize
    requires { number < 1000 }
    ensures value { result ≡ 1 + length (decimal number) }
    ensures few { result ≤ 4 }
{
    2 + usize::from(number >= 10) + usize::from(number >= 100)
}

/// Writes four octets behind the first `at`.
fn put_word(room: &mut [u8; ROOM], at: usize, word: u32)
    requires { at + 4 ≤ 256 }
    ensures { room.new ≡ take at room.old ++ (big_bytes 4 word ++ drop 4 (drop at room.old)) }
{
    BigEndian::write_u32(&mut room[at..], word);
}

/// Does the same with the two digits of a number below 100.
fn put_two(room: &mut [u8; ROOM], at: usize, number: u16) -> usize
    requires small { number < 100 }
    requires room { at + 2 ≤ 256 }
    ensures text { take result room.new ≡ take at room.old ++ (48 + number / 10) ∷ (48 + number % 10) ∷ [] }
    ensures at { result ≡ at + 2 }
{
    let (tens, ones) = digits(number);
    let end = put(room, at, tens);
    put(room, end, ones)
}

/// Returns the two digits of a number below 100.
fn digits(number: u16) -> (u8, u8)
    requires { number < 100 }
    ensures tens { result.0 ≡ 48 + number / 10 }
    ensures ones { result.1 ≡ 48 + number % 10 }
{
    let from = usize::from(number) * 2;
    (PAIRS[from], PAIRS[from + 1])
}

/// Does the same with the four digits of a number below 10,000.
fn put_four(room: &mut [u8; ROOM], at: usize, number: u16) -> usize
    requires small { number < 10000 }
    requires room { at + 4 ≤ 256 }
    ensures text { take result room.new ≡ take at room.old ++ (48 + number / 100 / 10) ∷ (48 + number / 100 % 10) ∷ (48 + number % 100 / 10) ∷ (48 + number % 100 % 10) ∷ [] }
    ensures at { result ≡ at + 4 }
{
    let end = put_two(room, at, number / 100);
    put_two(room, end, number % 100)
}

/// Returns the decimal digit of a number below 10.
fn digit(number: u16) -> u8
    requires { number < 10 }
    ensures { result ≡ 48 + number }
{
    b'0' + number as u8
}
