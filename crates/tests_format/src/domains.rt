//! Files that break one rule each, and domains with known values.
use crate::told::Told;
use domain_conf::read_domain;
use std::alloc::{AllocError, Global};
use std::test::Fail;
use wire_base::limits::{
    DOMAIN_FILE_LIMIT, MOST_BIER_ENTRIES, MOST_LABEL_ENTRIES, MOST_LINK_ENTRIES, MOST_ROUTERS,
    MOST_SUBDOMAINS, MOST_TABLE_ROWS,
};
use wire_base::{Domain, End, OwnSub, RouterConf};

// Three routers.
const ROUTERS: &str =
    "router = [{name='A',system='0000.0000.000a',prefix='10.0.0.1'},{name='B',system='0000.0000.0002',prefix='10.0.0.2'},{name='C-d_3',system='00FF.0000.0003',prefix='223.255.0.3',overload=true}]";

// Three sub-domains as well.
const BASE: &str =
    "subdomain = [{sd=0,kind='mpls'},{sd=1,kind='configured'},{sd=2,kind='mpls'}]\nrouter = [{name='A',system='0000.0000.000a',prefix='10.0.0.1'},{name='B',system='0000.0000.0002',prefix='10.0.0.2'},{name='C-d_3',system='00FF.0000.0003',prefix='223.255.0.3',overload=true}]";

// Their members as well.
const FULL: &str =
    "subdomain = [{sd=0,kind='mpls'},{sd=1,kind='configured'},{sd=2,kind='mpls'}]\nrouter = [{name='A',system='0000.0000.000a',prefix='10.0.0.1'},{name='B',system='0000.0000.0002',prefix='10.0.0.2'},{name='C-d_3',system='00FF.0000.0003',prefix='223.255.0.3',overload=true}]\nbier = [{router='A',sd=0,id=1},{router='A',sd=1,id=1},{router='A',sd=2,id=7},{router='B',sd=0,id=1}]";

// The start of a file, the rest, where `~` represents an LF, and the expected result.
const BROKEN: &str = "\
- | [[ => 1 Toml -
- | level = 1~level = 1 => 1 Toml -
- |  => 7 Limit router
- | zoo = 1~ant = 1~level = 9 => 2 Field ant
- | level = '2'~area = 1 => 2 Field level
- | level = 3~area = 1 => 4 Range level
- | area = 49 => 2 Field area
- | area = '' => 4 Range area
- | area = '4' => 4 Range area
- | area = '000102030405060708090a0b0c0d' => 4 Range area
- | row = 1~router = 1 => 2 Field row
- | row = [1] => 2 Field row
routers | link = 1~subdomain = [{}] => 2 Field link
- | subdomain = [{},{},{},{},{},{},{},{},{}] => 7 Limit subdomain
- | bier = 1~router = [] => 7 Limit router
routers | subdomain = [{kind='mpls',b=1,a=1}] => 2 Field subdomain[0].a
routers | subdomain = [{kind='mpls'}] => 2 Field subdomain[0].sd
routers | subdomain = [{sd=256,kind=1}] => 4 Range subdomain[0].sd
routers | subdomain = [{sd=-1}] => 4 Range subdomain[0].sd
routers | subdomain = [{sd=0,kind=true}] => 2 Field subdomain[0].kind
routers | subdomain = [{sd=0,kind='MPLS'}] => 4 Range subdomain[0].kind
routers | subdomain = [{sd=0,kind='mpls'},{sd=0,kind='configured'}] => 3 Duplicate subdomain[1].sd
base | row = [{sd=3,bsl=1}] => 6 Reference row[0].sd
base | row = [{sd=0,bsl=65,si=0,bift=1}] => 4 Range row[0].bsl
base | row = [{sd=0,bsl=64,si=256,bift=1}] => 4 Range row[0].si
base | row = [{sd=0,bsl=64,si=0,bift=0}] => 4 Range row[0].bift
base | row = [{sd=0,bsl=64,si=0,bift=1048576}] => 4 Range row[0].bift
base | row = [{sd=0,bsl=64,si=0,bift=1}] => 6 Reference row[0].sd
base | row = [{sd=1,bsl=4096,si=0,bift=1},{sd=1,bsl=4096,si=0,bift=1}] => 3 Duplicate row[1].si
base | row = [{sd=1,bsl=64,si=0,bift=1048575},{sd=1,bsl=128,si=0,bift=1048575}] => 3 Duplicate row[1].bift
- | router = [{name='1A'}] => 4 Range router[0].name
- | router = [{name='A234567890123456789012345678901_3'}] => 4 Range router[0].name
- | router = [{name='A',system='0000.0000.0001.'}] => 4 Range router[0].system
- | router = [{name='A',system='0000.0000.000g'}] => 4 Range router[0].system
- | router = [{name='A',system='0000.0000.0001',prefix='10.0.0.01'}] => 4 Range router[0].prefix
- | router = [{name='A',system='0000.0000.0001',prefix='10.0.0.256'}] => 4 Range router[0].prefix
- | router = [{name='A',system='0000.0000.0001',prefix='224.0.0.1'}] => 4 Range router[0].prefix
- | router = [{name='A',system='0000.0000.0001',prefix='0.0.0.1'}] => 4 Range router[0].prefix
- | router = [{name='A',system='0000.0000.0001',prefix='10.0.1'}] => 4 Range router[0].prefix
- | router = [{name='A',system='0000.0000.0001',prefix='10.0.0.1.1'}] => 4 Range router[0].prefix
- | router = [{name='A',system='0000.0000.0001',prefix='10.0.0.1',overload=1}] => 2 Field router[0].overload
- | router = [{name='A',system='0000.0000.0001',prefix='10.0.0.1'},{name='A',system='0000.0000.0001',prefix='10.0.0.1'}] => 3 Duplicate router[1].name
- | router = [{name='A',system='0000.0000.00aB',prefix='10.0.0.1'},{name='B',system='0000.0000.00Ab',prefix='10.0.0.1'}] => 3 Duplicate router[1].system
- | router = [{name='A',system='0000.0000.0001',prefix='10.0.0.1'},{name='B',system='0000.0000.0002',prefix='10.0.0.1'}] => 3 Duplicate router[1].prefix
base | bier = [{router='Z',sd=9}] => 6 Reference bier[0].router
base | bier = [{router='1 Z'}] => 6 Reference bier[0].router
base | bier = [{router=1}] => 2 Field bier[0].router
base | bier = [{router='A',sd=256}] => 4 Range bier[0].sd
base | bier = [{router='A',sd=9,id=70000}] => 6 Reference bier[0].sd
base | bier = [{router='A',sd=0,id=65536}] => 4 Range bier[0].id
base | bier = [{router='A',sd=0,id=1},{router='A',sd=0,id=2}] => 3 Duplicate bier[1].sd
full | labels = [{router='A',sd=0,bsl=64,max_si=256,label=1}] => 4 Range labels[0].max_si
full | labels = [{router='A',sd=0,bsl=64,max_si=0,label=15}] => 4 Range labels[0].label
full | labels = [{router='B',sd=2,bsl=64,max_si=0,label=16}] => 6 Reference labels[0].sd
full | labels = [{router='A',sd=1,bsl=64,max_si=0,label=16}] => 6 Reference labels[0].sd
full | labels = [{router='A',sd=0,bsl=64,max_si=255,label=1048321}] => 5 Labels labels[0].label
full | labels = [{router='A',sd=0,bsl=64,max_si=1,label=100},{router='A',sd=0,bsl=64,max_si=0,label=100}] => 3 Duplicate labels[1].bsl
full | labels = [{router='A',sd=0,bsl=64,max_si=1,label=100},{router='A',sd=2,bsl=64,max_si=0,label=101}] => 5 Labels labels[1].label
full | labels = [{router='A',sd=0,bsl=64,max_si=1,label=100},{router='A',sd=0,bsl=128,max_si=255,label=16}] => 5 Labels labels[1].label
routers | link = [{a='Z',b=1}] => 6 Reference link[0].a
routers | link = [{a='A',b='A',metric_ab=0}] => 4 Range link[0].metric_ab
routers | link = [{a='A',b='A',metric_ab=1,metric_ba=16777215}] => 4 Range link[0].metric_ba
routers | link = [{a='A',b='A',metric_ab=1,metric_ba=1,mac_a='03:00:00:00:00:01'}] => 4 Range link[0].mac_a
routers | link = [{a='A',b='A',metric_ab=1,metric_ba=1,mac_b='02-00-00-00-00-01'}] => 4 Range link[0].mac_b
routers | link = [{a='A',b='A',metric_ab=1,metric_ba=1}] => 6 Reference link[0].b
routers | link = [{a='A',b='B',metric_ab=1,metric_ba=1},{a='B',b='A',metric_ab=1,metric_ba=1}] => 3 Duplicate link[1].b
routers | link = [{a='A',b='B',metric_ab=1,metric_ba=1,mac_b='02:00:00:02:00:00'},{a='C-d_3',b='A',metric_ab=1,metric_ba=1}] => 3 Duplicate link[1].mac_a
routers | link = [{a='A',b='B',metric_ab=1,metric_ba=1,mac_a='02:00:00:00:00:0a'},{a='B',b='C-d_3',metric_ab=1,metric_ba=1,mac_b='02:00:00:00:00:0A'}] => 3 Duplicate link[1].mac_b";

// Returns the start of a file, by its name in the table.
fn head_of(name: &str) -> &'static str {
    match name {
        "routers" => ROUTERS,
        "base" => BASE,
        "full" => FULL,
        _ => "",
    }
}

// Returns the file of a line of the table.
fn file_of(alloc: Global, head: &str, more: &str) -> Result<String, AllocError> {
    let mut text = String::from_str(alloc, head_of(head))?;
    for line in more.split('~') {
        text.push_str("\n")?;
        text.push_str(line)?;
    }
    Ok(text)
}

// Reports what a copy of a file describes, or the first rule that it breaks.
fn tell_file(told: &mut Told, alloc: Global, text: &str) {
    match read_domain(alloc, text.as_bytes()) {
        Ok(domain) => match domain.copy() {
            Ok(copied) => tell_domain(told, &copied),
            Err(_) => told.word("want of memory"),
        },
        Err(fault) => {
            told.number("", u64::from(fault.number()));
            told.word(" ");
            told.octets(fault.name());
            told.word(" ");
            told.octets(fault.path());
        }
    }
}

fn tell_domain(told: &mut Told, domain: &Domain) {
    for router in domain.routers.as_slice() {
        tell_router(told, router);
    }
}

fn tell_router(told: &mut Told, router: &RouterConf) {
    told.octets(router.name.as_slice());
    tell_numbers(told, " ", &router.system.0);
    tell_numbers(told, " ", &router.prefix.0);
    tell_numbers(told, " area", router.area.as_slice());
    told.word(if router.overload { " overload" } else { "" });
    for sub in router.subs.as_slice() {
        tell_sub(told, sub);
    }
    for end in router.ends.as_slice() {
        tell_end(told, end);
    }
    told.word("\n");
}

fn tell_numbers(told: &mut Told, word: &str, numbers: &[u8]) {
    told.word(word);
    for number in numbers {
        told.number(".", u64::from(*number));
    }
}

fn tell_sub(told: &mut Told, sub: &OwnSub) {
    told.number(" sd ", u64::from(sub.sd));
    told.number(" id ", u64::from(sub.id));
    for range in sub.ranges.as_slice() {
        told.number(" labels ", u64::from(range.bsl.bits()));
        told.number("/", u64::from(range.max_si));
        told.number("/", u64::from(range.label));
    }
}

fn tell_end(told: &mut Told, end: &End) {
    tell_numbers(told, " to", &end.peer.0);
    tell_numbers(told, " at", &end.peer_mac.0);
    tell_numbers(told, " from", &end.own_mac.0);
    told.number(" metric ", u64::from(end.metric));
}

#[test]
fn says_the_first_broken_rule(rt: HostRuntime) -> Result<(), Fail> {
    for line in BROKEN.lines() {
        let (file, wanted) = line.split_once(" => ").ok_or("a line without an arrow")?;
        let (head, more) = file.split_once(" | ").ok_or("a line without a file")?;
        let text = file_of(rt.alloc(), head, more)?;
        let mut told = Told::new(rt.alloc());
        tell_file(&mut told, rt.alloc(), text.as_str());
        assert_eq!(rt; told.text(), wanted.as_bytes(), "at {more}");
    }
    Ok(())
}

const RING: &str = "subdomain=[{sd=0,kind='mpls'}]
router=[{name='A',system='0000.0000.0001',prefix='10.0.0.1'},{name='B',system='0000.0000.0002',prefix='10.0.0.2'},{name='C',system='0000.0000.0003',prefix='10.0.0.3'},{name='D',system='0000.0000.0004',prefix='10.0.0.4'}]
bier=[{router='A',sd=0,id=1},{router='B',sd=0,id=2},{router='C',sd=0,id=3},{router='D',sd=0,id=4}]
labels=[{router='A',sd=0,bsl=64,max_si=0,label=100},{router='B',sd=0,bsl=64,max_si=0,label=200},{router='C',sd=0,bsl=64,max_si=0,label=300},{router='D',sd=0,bsl=64,max_si=0,label=400}]
link=[{a='A',b='B',metric_ab=10,metric_ba=10},{a='B',b='C',metric_ab=10,metric_ba=10},{a='C',b='D',metric_ab=10,metric_ba=10},{a='D',b='A',metric_ab=10,metric_ba=10}]";

const RING_SHOWN: &str =
    "A .0.0.0.0.0.1 .10.0.0.1 area.73.0.1 sd 0 id 1 labels 64/0/100 to.0.0.0.0.0.2 at.2.0.0.1.0.0 from.2.0.0.0.0.1 metric 10 to.0.0.0.0.0.4 at.2.0.0.3.0.0 from.2.0.0.0.0.3 metric 10
B .0.0.0.0.0.2 .10.0.0.2 area.73.0.1 sd 0 id 2 labels 64/0/200 to.0.0.0.0.0.1 at.2.0.0.0.0.1 from.2.0.0.1.0.0 metric 10 to.0.0.0.0.0.3 at.2.0.0.2.0.1 from.2.0.0.1.0.2 metric 10
C .0.0.0.0.0.3 .10.0.0.3 area.73.0.1 sd 0 id 3 labels 64/0/300 to.0.0.0.0.0.2 at.2.0.0.1.0.2 from.2.0.0.2.0.1 metric 10 to.0.0.0.0.0.4 at.2.0.0.3.0.2 from.2.0.0.2.0.3 metric 10
D .0.0.0.0.0.4 .10.0.0.4 area.73.0.1 sd 0 id 4 labels 64/0/400 to.0.0.0.0.0.3 at.2.0.0.2.0.3 from.2.0.0.3.0.2 metric 10 to.0.0.0.0.0.1 at.2.0.0.0.0.3 from.2.0.0.3.0.0 metric 10
";

const GIVEN: &str = "level=1
area='49aB'
labels=[{router='A',sd=2,bsl=4096,max_si=255,label=1048320},{router='A',sd=0,bsl=256,max_si=3,label=16},{router='A',sd=2,bsl=64,max_si=0,label=20}]
link=[{b='A',a='B',metric_ab=1,metric_ba=16777214,mac_a='Fe:00:0a:00:00:01'},{a='A',b='C-d_3',metric_ab=7,metric_ba=8,mac_b='00:00:00:00:00:01'}]";

const GIVEN_SHOWN: &str =
    "A .0.0.0.0.0.10 .10.0.0.1 area.73.171 sd 0 id 1 labels 256/3/16 sd 1 id 1 sd 2 id 7 labels 4096/255/1048320 labels 64/0/20 to.0.0.0.0.0.2 at.254.0.10.0.0.1 from.2.0.0.0.0.1 metric 16777214 to.0.255.0.0.0.3 at.0.0.0.0.0.1 from.2.0.0.0.0.2 metric 7
B .0.0.0.0.0.2 .10.0.0.2 area.73.171 sd 0 id 1 to.0.0.0.0.0.10 at.2.0.0.0.0.1 from.254.0.10.0.0.1 metric 1
C-d_3 .0.255.0.0.0.3 .223.255.0.3 area.73.171 overload to.0.0.0.0.0.10 at.2.0.0.0.0.2 from.0.0.0.0.0.1 metric 8
";

#[test]
fn gives_what_a_file_says(rt: HostRuntime) -> Result<(), Fail> {
    for (head, more, wanted) in [("", RING, RING_SHOWN), (FULL, GIVEN, GIVEN_SHOWN)] {
        let text = format!(in rt.alloc(); "{head}\n{more}")?;
        let mut told = Told::new(rt.alloc());
        tell_file(&mut told, rt.alloc(), text.as_str());
        assert_eq!(rt; told.text(), wanted.as_bytes(), "at {more}");
    }
    Ok(())
}

// Returns a router with that many links.
fn star(alloc: Global, links: usize) -> Result<String, AllocError> {
    let mut text = String::new(alloc);
    text.push_str("[[router]]\nname='hub'\nsystem='0000.0000.0000'\nprefix='9.0.0.1'\n")?;
    for n in 0..links {
        let more = format!(in alloc;
            "[[router]]\nname='r{n}'\nsystem='0000.0000.1{n:03}'\nprefix='10.0.0.{n}'\n[[link]]\na='r{n}'\nb='hub'\nmetric_ab=1\nmetric_ba=1\n"
        )?;
        text.push_str(more.as_str())?;
    }
    Ok(text)
}

// Returns a router in that many sub-domains. In the first five of them it has labels of each length.
fn member(alloc: Global, subdomains: usize) -> Result<String, AllocError> {
    let mut text = String::new(alloc);
    text.push_str("[[router]]\nname='A'\nsystem='0000.0000.0000'\nprefix='9.0.0.1'\n")?;
    for n in 0..subdomains {
        let more = format!(in alloc;
            "[[subdomain]]\nsd={n}\nkind='mpls'\n[[bier]]\nrouter='A'\nsd={n}\nid=1\n"
        )?;
        text.push_str(more.as_str())?;
    }
    for n in 0..5 {
        for (m, bits) in [64, 128, 256, 512, 1024, 2048, 4096].iter().enumerate() {
            let more = format!(in alloc;
                "[[labels]]\nrouter='A'\nsd={n}\nbsl={bits}\nmax_si=0\nlabel=1{n}{m}\n"
            )?;
            text.push_str(more.as_str())?;
        }
    }
    Ok(text)
}

fn is_beyond_limit(alloc: Global, text: &str) -> bool {
    let mut told = Told::new(alloc);
    tell_file(&mut told, alloc, text);
    told.text() == b"7 Limit router[0]".as_slice()
}

#[test]
fn counts_what_a_router_has(rt: HostRuntime) -> Result<(), Fail> {
    for links in [64, 65] {
        let text = star(rt.alloc(), links)?;
        assert_eq!(rt; is_beyond_limit(rt.alloc(), text.as_str()), links > 64);
    }
    for subdomains in [5, 6] {
        let text = member(rt.alloc(), subdomains)?;
        assert_eq!(rt; is_beyond_limit(rt.alloc(), text.as_str()), subdomains > 5);
    }
    Ok(())
}

/// The arrays of a file, how many entries each may have, and the error of as many empty ones.
const ARRAYS: [(&str, usize, &str); 6] = [
    ("subdomain", MOST_SUBDOMAINS, "2 Field subdomain[0].sd"),
    ("row", MOST_TABLE_ROWS, "2 Field row[0].sd"),
    ("router", MOST_ROUTERS, "2 Field router[0].name"),
    ("bier", MOST_BIER_ENTRIES, "2 Field bier[0].router"),
    ("labels", MOST_LABEL_ENTRIES, "2 Field labels[0].router"),
    ("link", MOST_LINK_ENTRIES, "2 Field link[0].a"),
];

// Returns a file whose array has that many empty entries.
fn empties(alloc: Global, array: &str, count: usize) -> Result<String, AllocError> {
    let head = if array == "router" { "" } else { ROUTERS };
    let mut text = format!(in alloc; "{head}\n{array} = [")?;
    for _ in 0..count {
        text.push_str("{},")?;
    }
    text.push_str("]\n")?;
    Ok(text)
}

#[test]
fn counts_the_entries_of_arrays(rt: HostRuntime) -> Result<(), Fail> {
    for (array, most, wanted) in ARRAYS {
        let full = empties(rt.alloc(), array, most)?;
        let mut told = Told::new(rt.alloc());
        tell_file(&mut told, rt.alloc(), full.as_str());
        assert_eq!(rt; told.text(), wanted.as_bytes(), "at {array}");
        let more = empties(rt.alloc(), array, most + 1)?;
        let beyond = format!(in rt.alloc(); "7 Limit {array}")?;
        let mut told = Told::new(rt.alloc());
        tell_file(&mut told, rt.alloc(), more.as_str());
        assert_eq!(rt; told.text(), beyond.as_bytes(), "at {array}");
    }
    Ok(())
}

// Returns a comment with that many octets, a multiple of 16.
fn comment(alloc: Global, octets: usize) -> Result<String, AllocError> {
    let mut text = String::new(alloc);
    for _ in 0..octets / 16 {
        text.push_str("#fifteen octets\n")?;
    }
    Ok(text)
}

#[test]
fn counts_the_octets_of_a_file(rt: HostRuntime) -> Result<(), Fail> {
    let mut text = comment(rt.alloc(), DOMAIN_FILE_LIMIT)?;
    let mut told = Told::new(rt.alloc());
    tell_file(&mut told, rt.alloc(), text.as_str());
    assert_eq!(rt; told.text(), b"7 Limit router".as_slice());
    text.push_str("#")?;
    let mut told = Told::new(rt.alloc());
    tell_file(&mut told, rt.alloc(), text.as_str());
    assert_eq!(rt; told.text(), b"7 Limit -".as_slice());
    Ok(())
}
