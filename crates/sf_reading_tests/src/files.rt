//! Files that are read, and files that are refused at their first token that fits nothing.

use sf_ast::{File, Item, SurfaceCommand};
use sf_base::Place;
use sf_lex::{LexFault, Token, tokens};
use sf_parse::{ParseFault, parse};
use std::alloc::{AllocError, Global};

/// What becomes of a file's bytes.
#[derive(Clone, Copy, Debug, PartialEq, Eq)]
enum Answer {
    Read,
    Lexed(LexFault),
    Refused(ParseFault),
}

/// The place in that line and column.
fn at(line: u32, column: u32) -> Place {
    Place { line, column }
}

/// Refused at that place of the first line, whose token fits nothing.
fn unexpected(column: u32) -> Answer {
    Answer::Refused(ParseFault::Unexpected(at(1, column)))
}

/// Refused at that place of the first line, whose token begins what is too deep.
fn too_deep(column: u32) -> Answer {
    Answer::Refused(ParseFault::TooDeep(at(1, column)))
}

/// What becomes of those bytes.
fn outcome(alloc: Global, bytes: &[u8]) -> Answer {
    match tokens(alloc, bytes) {
        Err(fault) => Answer::Lexed(fault),
        Ok(found) => match parse(alloc, &found) {
            Ok(_) => Answer::Read,
            Err(fault) => Answer::Refused(fault),
        },
    }
}

/// The file that those bytes are, if they are one.
fn file(alloc: Global, bytes: &[u8]) -> Option<File> {
    match tokens(alloc, bytes) {
        Err(_) => None,
        Ok(found) => parse(alloc, &found).ok(),
    }
}

/// Files that are read.
const READ: [&[u8]; 47] = [
    b"f() [__ == nil] { }",
    b"f() { } /* \xc3\xa4 @ */",
    b"f(x) { x->tl = -9223372036854775808; }",
    b"f(x) { x->tl = 9223372036854775807; }",
    b"f(;) { }",
    b"f(x;) { }",
    b"resource r () []",
    b"f(x) { dispose x; dispose(x); }",
    b"f(x) { nil->tl = 3; 3->hd = nil; }",
    b"f(x) [if x == nil then emp else if (x != nil) then emp else emp * x == nil] { }",
    b"tl, pv; f(x, l) [dll(x,nil,l,nil)] { }",
    b"f(x) [dll(_a,_b,3,NULL) * x == _a] { }",
    b"f() { with r when (x == nil) { } }",
    b"q; f(x) { x->tl = 1; }",
    b"f(x) [x|->q:1] { }",
    b"f() { local x; } [x == nil]",
    b"f() { } f() { }",
    b"f(x; x) { }",
    b"a; b; a;",
    b"resource a (v, v) []",
    b"f(x) [x|->tl:1,hd:2,tl:3] { }",
    b"resource a (v) [] resource b (w, v) []",
    b"resource a (v) [w == nil] resource b (w) []",
    b"q, tl; f(x) [list(x) * tree(x)] { }",
    b"q; f(x) [tree(y)] { }",
    b"f(x) { f(y,y); }",
    b"f(x;) { f(x); }",
    b"f(x) [if x == nil then x == _y else x|->tl:_y] { }",
    b"f(x) [(if x == nil then _y == nil else emp) * ls(x,_y)] { }",
    b"f(x) [if _y == nil then emp else emp * list(x)] { }",
    b"f(x) [ls(_a,_b) * _b|->tl:_a * x|->tl:_b] { }",
    b"f(x) [_a == _b * _b == x] { }",
    b"f(x) [_a|->tl:x] { }",
    b"f(x) { } [list(_q)] resource r (v) [list(_w)]",
    b"f(x) [if x == nil then (if x == nil then _z == x * list(_z) else _z == nil) else emp] { }",
    b"resource r (v) [] f() { with r when (v == nil) { v = nil; } }",
    b"resource r (v) [] f() { local v; v = nil; } [v == nil]",
    b"h(x,y,z;) { } q(x;y) { local z; h(x,z,x;); }",
    b"f(x;y) { } g(x;) { } p(a;) { f(a;nil) || g(a;); }",
    b"f(y) { } p(a;) { f(a) || f(a); }",
    b"f() [v == nil] { v = nil; g(); } g() { } h() { with r when (true) { f(); } }",
    b"",
    b" /* */ ",
    b"f() { f(x, y; x, 3); }",
    b"f() { f(; 3); }",
    b"f() { f(x;); }",
    b"f() { while (true) [emp] { } }",
];

/// Files that are refused, and the line and the column of the token that fits nothing.
const REFUSED: [(&[u8], (u32, u32)); 37] = [
    (b"f(x) { x->tl = 3/**/4; }", (1, 21)),
    (b"f(x,) { }", (1, 5)),
    (b"f() { f(3;); }", (1, 10)),
    (b"f() { if (true) { } else { } else { } }", (1, 30)),
    (b"f() { local ; }", (1, 13)),
    (b"f() {", (1, 6)),
    (b"f", (1, 2)),
    (b"f() [true] { }", (1, 6)),
    (b"f(x) [x] { }", (1, 8)),
    (b"f(x) [x|->tl] { }", (1, 13)),
    (b"f(x) [x|->tl:x,] { }", (1, 16)),
    (b"f(x;) { f(x;) || x = nil; }", (1, 20)),
    (b"f(x) { x = new; }", (1, 15)),
    (b"f(x) { x == nil; }", (1, 10)),
    (b"f(x) { x = x->tl->tl; }", (1, 17)),
    (b"f(x) { if x == nil { } }", (1, 11)),
    (b"f(x) [lseg(x)] { }", (1, 13)),
    (b"f(list) { }", (1, 3)),
    (b"f(dll) { }", (1, 3)),
    (b"f(x) [dll(x,nil,x)] { }", (1, 18)),
    (b"f(x) [dll(x,x,x,x,x)] { }", (1, 18)),
    (b"f(x) [dll x] { }", (1, 11)),
    (b"a b;", (1, 3)),
    (b"f() { x = ; }", (1, 11)),
    (b"f() { f(x, 3; x); }", (1, 13)),
    (b"f() { f(x, ; 3); }", (1, 12)),
    (b"f() { dispose(x; }", (1, 16)),
    (b"f() { local x, y z; }", (1, 18)),
    (b"f() { while (true) [emp } }", (1, 25)),
    (b"f() { with r (true) { } }", (1, 14)),
    (b"f() { ; }", (1, 7)),
    (b"f() { } }", (1, 9)),
    (b"f() { } [emp] [emp]", (1, 15)),
    (b"f() { /* */ ", (1, 13)),
    (b"f() {\n", (2, 1)),
    (b"f() {\n  x = y\n}", (3, 1)),
    (b"resource r (x) ", (1, 16)),
];

#[test]
fn files_are_read_or_refused_at_the_first_bad_token(rt: HostRuntime) {
    for bytes in READ {
        assert!(rt; outcome(rt.alloc(), bytes) == Answer::Read);
    }
    for (bytes, (line, column)) in REFUSED {
        let fault = ParseFault::Unexpected(at(line, column));
        assert!(rt; outcome(rt.alloc(), bytes) == Answer::Refused(fault));
    }
}

/// Parts of a text, each as often as it says, one after the other.
fn repeated(alloc: Global, parts: &[(&[u8], usize)]) -> Result<Vec<u8>, AllocError> {
    let mut text = Vec::new(alloc);
    for (part, count) in parts {
        for _ in 0..*count {
            text.extend_from_slice(*part)?;
        }
    }
    Ok(text)
}

/// The beginning of a choice between commands, which stands in front of another.
const IF: &[u8] = b"if (true) ";

/// The beginning of one between assertions.
const CHOICE: &[u8] = b"if true then emp else ";

#[test]
fn nesting_has_sixty_four_levels(rt: HostRuntime) -> Result<(), AllocError> {
    let cases: [(&[u8], &[u8], usize, &[u8], &[u8], Answer); 13] = [
        (b"f() ", b"{", 65, b"", b"}", Answer::Read),
        (b"f() ", b"{", 66, b"", b"}", too_deep(70)),
        (b"f() { ", b"{", 64, b"x = nil;", b"", too_deep(71)),
        (b"f() { ", b"{", 64, b";", b"", unexpected(71)),
        (
            b"f() { ",
            b"{",
            63,
            b"if (true) x = nil;",
            b"",
            too_deep(80),
        ),
        (b"f() { ", b"{", 63, b"if (true) ;", b"", unexpected(80)),
        (b"f() { ", b"{", 63, b"if (true) ", b"", unexpected(80)),
        (b"f() { ", IF, 63, b"x = nil; }", b"", Answer::Read),
        (b"f() [", b"(", 63, b"emp", b")", unexpected(135)),
        (b"f() [", b"(", 64, b"emp", b")", too_deep(70)),
        (b"f() [", b"(", 65, b"", b"", too_deep(70)),
        (b"f() [", CHOICE, 64, b"emp", b"", too_deep(1405)),
        (
            b"f() [",
            b"(",
            62,
            b"if true then emp else emp * (emp)",
            b"",
            too_deep(97),
        ),
    ];
    for (before, open, times, inside, close, expected) in cases {
        let parts: [(&[u8], usize); 4] = [(before, 1), (open, times), (inside, 1), (close, times)];
        let text = repeated(rt.alloc(), parts.as_slice())?;
        assert!(rt; outcome(rt.alloc(), text.as_slice()) == expected);
    }
    Ok(())
}

#[test]
fn a_million_bytes_of_one_list_are_read(rt: HostRuntime) -> Result<(), AllocError> {
    let cases: [[(&[u8], usize); 3]; 8] = [
        [(b"f(){", 1), (b"x=x;", 262_000), (b"}", 1)],
        [(b"f(){{", 1), (b"x=x;", 262_000), (b"}}", 1)],
        [(b"f(){", 1), (b"local x;", 131_000), (b"}", 1)],
        [(b"", 0), (b"a;", 524_000), (b"", 0)],
        [(b"f(x", 1), (b",x", 524_000), (b"){}", 1)],
        [(b"f(){f(x", 1), (b",x", 524_000), (b");}", 1)],
        [(b"f()[x==x", 1), (b"*x==x", 209_600), (b"]{}", 1)],
        [(b"f()[x|->x:x", 1), (b",x:x", 262_000), (b"]{}", 1)],
    ];
    for parts in cases {
        let text = repeated(rt.alloc(), parts.as_slice())?;
        assert!(rt; outcome(rt.alloc(), text.as_slice()) == Answer::Read);
    }
    Ok(())
}

/// How many commands the first procedure has, and whether the first is an `if` without `else`.
fn first_body(file: &File) -> (usize, bool) {
    for item in file.items.iter() {
        if let Item::Procedure(procedure) = item {
            return (
                procedure.body.len(),
                matches!(
                    procedure.body.first(),
                    Some(SurfaceCommand::IfAlone(_, _, _))
                ),
            );
        }
    }
    (0, false)
}

/// How many conjuncts the first procedure's precondition has.
fn first_conjuncts(file: &File) -> usize {
    for item in file.items.iter() {
        if let Item::Procedure(procedure) = item {
            if let Some(annotation) = &procedure.pre {
                if let Some(assertion) = &annotation.assertion {
                    return 1 + assertion.more.len().min(1_000);
                }
            }
        }
    }
    0
}

#[test]
fn an_else_belongs_to_the_nearest_if(rt: HostRuntime) {
    let cases: [(&[u8], (usize, bool)); 2] = [
        (
            b"f(x;) { if (true) if (true) x = nil; else x = 1; }",
            (1, true),
        ),
        (
            b"f(x;) { if (true) { if (true) x = nil; } else x = 1; }",
            (1, false),
        ),
    ];
    for (bytes, body) in cases {
        let read = file(rt.alloc(), bytes);
        assert!(rt; read.as_ref().is_some_and(|file| first_body(file) == body));
    }
}

#[test]
fn a_branch_reaches_to_the_right(rt: HostRuntime) {
    let cases: [(&[u8], usize); 2] = [
        (b"f() [if true then emp else emp * emp * emp] { }", 1),
        (b"f() [(if true then emp else emp) * emp * emp] { }", 3),
    ];
    for (bytes, count) in cases {
        let read = file(rt.alloc(), bytes);
        assert!(rt;
            read.as_ref()
                .is_some_and(|file| first_conjuncts(file) == count)
        );
    }
}

/// The printed grammar, in letters: a capital for a rule, any other for a token.
const GRAMMAR: [(u8, &[u8]); 69] = [
    (b'F', b""),
    (b'F', b"IF"),
    (b'I', b"xW;"),
    (b'I', b"rx(V)[B]"),
    (b'I', b"x(P)N{LD}N"),
    (b'N', b""),
    (b'N', b"[B]"),
    (b'V', b""),
    (b'V', b"xW"),
    (b'W', b""),
    (b'W', b",xW"),
    (b'P', b"V"),
    (b'P', b"V;V"),
    (b'L', b""),
    (b'L', b"oxW;L"),
    (b'D', b""),
    (b'D', b"CD"),
    (b'C', b"x=E;"),
    (b'C', b"x=E>x;"),
    (b'C', b"x=n();"),
    (b'C', b"E>x=E;"),
    (b'C', b"d(E);"),
    (b'C', b"dE;"),
    (b'C', b"i(T)C"),
    (b'C', b"i(T)CeC"),
    (b'C', b"h(T)NC"),
    (b'C', b"vxw(T)C"),
    (b'C', b"G;"),
    (b'C', b"G&G;"),
    (b'C', b"{D}"),
    (b'G', b"x(X)"),
    (b'G', b"x(V;X)"),
    (b'X', b""),
    (b'X', b"EY"),
    (b'Y', b""),
    (b'Y', b",EY"),
    (b'E', b"x"),
    (b'E', b"."),
    (b'E', b"u"),
    (b'E', b"0"),
    (b'T', b"b"),
    (b'T', b"E~E"),
    (b'T', b"E!E"),
    (b'B', b""),
    (b'B', b"A"),
    (b'A', b"SR"),
    (b'R', b""),
    (b'R', b"*SR"),
    (b'S', b"m"),
    (b'S', b"(A)"),
    (b'S', b"i(U)tAeA"),
    (b'S', b"iUtAeA"),
    (b'S', b"O~O"),
    (b'S', b"O!O"),
    (b'S', b"O|H"),
    (b'S', b"s(O,O)"),
    (b'S', b"g(O,O)"),
    (b'S', b"l(O)"),
    (b'S', b"k(O,O,O,O)"),
    (b'S', b"y(O)"),
    (b'H', b""),
    (b'H', b"x:OJ"),
    (b'J', b""),
    (b'J', b",x:OJ"),
    (b'O', b"E"),
    (b'O', b"_"),
    (b'U', b"b"),
    (b'U', b"O~O"),
    (b'U', b"O!O"),
];

/// The letters of all tokens.
const LETTERS: &[u8] = b"x_0udkemilosgn.rtybwhv()[]{},;:*=~!>|&";

/// How the token of that letter is written.
fn spelling(letter: u8) -> &'static [u8] {
    match letter {
        b'x' => b"x",
        b'_' => b"_a",
        b'0' => b"-7",
        b'u' => b"NULL",
        b'd' => b"dispose",
        b'k' => b"dll",
        b'e' => b"else",
        b'm' => b"emp",
        b'i' => b"if",
        b'l' => b"list",
        b'o' => b"local",
        b's' => b"ls",
        b'g' => b"lseg",
        b'n' => b"new",
        b'.' => b"nil",
        b'r' => b"resource",
        b't' => b"then",
        b'y' => b"tree",
        b'b' => b"true",
        b'w' => b"when",
        b'h' => b"while",
        b'v' => b"with",
        b'(' => b"(",
        b')' => b")",
        b'[' => b"[",
        b']' => b"]",
        b'{' => b"{",
        b'}' => b"}",
        b',' => b",",
        b';' => b";",
        b':' => b":",
        b'*' => b"*",
        b'=' => b"=",
        b'~' => b"==",
        b'!' => b"!=",
        b'>' => b"->",
        b'|' => b"|->",
        _ => b"||",
    }
}

/// What was seen while the places where a rule may end were gathered.
#[derive(Clone, Copy, Debug)]
struct Seen {
    /// A token was wanted after the last letter.
    cut: bool,
    /// The rules went too deep to be followed.
    lost: bool,
}

/// Behind which letters a token may end that begins after one of those, each a bit of a number.
fn ends_of_token(letters: &[u8], wanted: u8, from: u64, seen: &mut Seen) -> u64 {
    let mut here: u64 = 1;
    let mut found = 0;
    for letter in letters {
        let next = here.wrapping_mul(2);
        if from & here != 0 && *letter == wanted {
            found |= next;
        }
        here = next;
    }
    if from & here != 0 {
        seen.cut = true;
    }
    found
}

/// Behind which letters a rule may end that begins after one of those.
#[cycle(rules)]
fn ends_of_rule(letters: &[u8], rule: u8, from: u64, fuel: u32, seen: &mut Seen) -> u64 {
    if from == 0 {
        return 0;
    }
    if fuel == 0 {
        seen.lost = true;
        return 0;
    }
    let mut found = 0;
    for (name, parts) in GRAMMAR {
        if name == rule {
            found |= ends_of_parts(letters, parts, from, fuel - 1, seen);
        }
    }
    found
}

/// Behind which letters parts may end, one after the other.
#[cycle(rules)]
fn ends_of_parts(letters: &[u8], parts: &[u8], from: u64, fuel: u32, seen: &mut Seen) -> u64 {
    let mut at = from;
    for part in parts {
        at = if part.is_ascii_uppercase() {
            ends_of_rule(letters, *part, at, fuel, seen)
        } else {
            ends_of_token(letters, *part, at, seen)
        };
    }
    at
}

/// Whether some file begins with those letters, and whether they are one.
fn begins(letters: &[u8], lost: &mut bool) -> (bool, bool) {
    let mut seen = Seen {
        cut: false,
        lost: false,
    };
    let ends = ends_of_rule(letters, b'F', 1, 400, &mut seen);
    let mut last: u64 = 1;
    for _ in letters {
        last = last.wrapping_mul(2);
    }
    let whole = ends & last != 0;
    *lost |= seen.lost;
    (seen.cut || whole, whole)
}

/// How many letters come before the first one with which no file begins, if there is a fault.
fn first_fault(letters: &[u8], lost: &mut bool) -> Option<usize> {
    for count in 0..letters.len() {
        let (can_begin, _) = begins(&letters[..count + 1], lost);
        if !can_begin {
            return Some(count);
        }
    }
    let (_, whole) = begins(letters, lost);
    if whole { None } else { Some(letters.len()) }
}

/// The place of that token, or the one after the bytes.
fn place_of(bytes: &[u8], found: &[Token], index: usize) -> Place {
    match found.get(index) {
        Some(token) => token.place,
        None => at(
            1,
            1u32.wrapping_add(u32::try_from(bytes.len()).unwrap_or(0)),
        ),
    }
}

/// Whether the parser says of those tokens what the printed grammar does.
fn agrees(alloc: Global, letters: &[u8], lost: &mut bool) -> Result<bool, AllocError> {
    let mut text = Vec::new(alloc);
    for letter in letters {
        text.extend_from_slice(spelling(*letter))?;
        text.push(b' ')?;
    }
    let Ok(found) = tokens(alloc, text.as_slice()) else {
        return Ok(false);
    };
    let expected = match first_fault(letters, lost) {
        None => Answer::Read,
        Some(index) => Answer::Refused(ParseFault::Unexpected(place_of(
            text.as_slice(),
            found.items.as_slice(),
            index,
        ))),
    };
    Ok(found.items.len() == letters.len() && outcome(alloc, text.as_slice()) == expected)
}

/// Numbers that look random, always the same ones.
#[derive(Clone, Copy, Debug)]
struct Numbers {
    state: u32,
}

/// The next of them, below that many.
fn next_number(numbers: &mut Numbers, below: usize) -> usize {
    numbers.state = numbers
        .state
        .wrapping_mul(1_664_525)
        .wrapping_add(1_013_904_223);
    let number = (numbers.state >> 16) as usize;
    if below == 0 { 0 } else { number % below }
}

/// One of all letters.
fn next_letter(numbers: &mut Numbers) -> u8 {
    match LETTERS.get(next_number(numbers, LETTERS.len())) {
        Some(letter) => *letter,
        None => b'x',
    }
}

/// Those letters with one change: another letter, one less, one more, or no more from there on.
fn changed(alloc: Global, letters: &[u8], numbers: &mut Numbers) -> Result<Vec<u8>, AllocError> {
    let place = next_number(numbers, letters.len());
    let change = next_number(numbers, 4);
    let other = next_letter(numbers);
    let mut out = Vec::new(alloc);
    for (index, letter) in letters.iter().enumerate() {
        if index != place || change == 2 {
            out.push(*letter)?;
        }
        if index == place && change == 3 {
            return Ok(out);
        }
        if index == place && change != 1 {
            out.push(other)?;
        }
    }
    Ok(out)
}

/// Letters that go on as a file may, but for one in eight.
fn grown(alloc: Global, numbers: &mut Numbers, lost: &mut bool) -> Result<Vec<u8>, AllocError> {
    let mut out = Vec::new(alloc);
    for _ in 0..20 {
        let mut letter = next_letter(numbers);
        for _ in 0..12 {
            let mut tried = Vec::new(alloc);
            tried.extend_from_slice(out.as_slice())?;
            tried.push(letter)?;
            let (can_begin, _) = begins(tried.as_slice(), lost);
            if can_begin {
                break;
            }
            letter = next_letter(numbers);
        }
        out.push(letter)?;
    }
    Ok(out)
}

/// Files in letters.
const FILES: [&[u8]; 8] = [
    b"x(x;x)[x~.]{ox;ox,x;x=x;}[m]",
    b"x(x){i(x~.){}ex=x>x;h(x!0)[l(x)]x>x=.;}",
    b"x(){x(x;x,.)&x(;0);vxw(b){d(x);dx;}x=n();}",
    b"x(x)[ix~.tmei(x!u)tmem*x~.*(x|x:_,x:0)]{}",
    b"rx(x,x)[s(x,_)*g(_,u)*y(x)*_|]x,x;x;",
    b"x(;){i(b)i(b)x=.;ex=u;0>x=x;u>x=0;}",
    b"x(){x(x,x,x);x(x,x;0,x);x(0,x)&x();}x;",
    b"x(){h(b)[]vxw(x~x)i(0!u){{}}e{}}[(m)*m]",
];

#[test]
fn the_first_bad_token_is_that_of_the_printed_grammar(rt: HostRuntime) -> Result<(), AllocError> {
    let mut numbers = Numbers { state: 20_051_101 };
    let mut lost = false;
    for letters in FILES {
        assert!(rt; agrees(rt.alloc(), letters, &mut lost)?);
        for _ in 0..30 {
            let one = changed(rt.alloc(), letters, &mut numbers)?;
            assert!(rt; agrees(rt.alloc(), one.as_slice(), &mut lost)?);
            let two = changed(rt.alloc(), one.as_slice(), &mut numbers)?;
            assert!(rt; agrees(rt.alloc(), two.as_slice(), &mut lost)?);
        }
    }
    for _ in 0..60 {
        let letters = grown(rt.alloc(), &mut numbers, &mut lost)?;
        assert!(rt; agrees(rt.alloc(), letters.as_slice(), &mut lost)?);
    }
    assert!(rt; !lost);
    Ok(())
}
