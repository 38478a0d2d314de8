// Contexts whose values change while a template is expanded.
ghost use Rattle.std.specs.Prelude.{◌≡◌, ◌<◌, ◌+◌, ◌%◌};

use crate::same::same;
use iri_grammar::spec::{IriSpec, UriSpec};
use iri_template::context::Context;
use iri_template::dynamic_context::{DynamicContext, Fixed};
use iri_template::error::{Error, ErrorKind};
use iri_template::laws;
use iri_template::template::UriTemplateStr;
use iri_template::var_name::VarName;
use iri_template::visitor::Visitor;
use iri_text::{SliceSink, Stop, ToStringFallible};
use std::alloc::Global;
use std::test::Fail;

// A string for so many more calls, and then a list of `a`.
#[derive(Drop)]
struct Turning {
    left: u8,
    visits: u8,
    starts: u64,
    ends: u64,
}

impl Turning {
    fn new(left: u8) -> Turning {
        Turning {
            left,
            visits: 0,
            starts: 0,
            ends: 0,
        }
    }

    fn counts(&self) -> (u8, u64, u64) {
        (self.visits, self.starts, self.ends)
    }
}

impl DynamicContext for Turning {
    ghost use Rattle.std.specs.Prelude.{Some, [], ◌∷◌, codes, cond, nat_lt};
    ghost use Rattle.iri_template.specs.ShownValues.{string, list};
    ghost use Rattle.iri_template.specs.Tells.{count_told};

    ghost tells = { λ c. Some (λ k name purpose. cond (nat_lt k c.left) (string (codes "b")) (list (codes "a" ∷ []))) };

    ghost starts = { λ c. count_told c.starts };

    ghost ends = { λ c. count_told c.ends };

    fn visit_dynamic<V: Visitor>(&mut self, visitor: &mut V) -> Result<(), Stop> {
        let text = self.left > 0;
        self.left = self.left.saturating_sub(1);
        self.visits = self.visits.saturating_add(1);
        if text {
            visitor.visit_string(&"b")
        } else {
            visitor.visit_list_direct(&["a"])
        }
    }

    fn on_expansion_start(&mut self) {
        self.left = self.left.saturating_sub(1);
        self.starts = self.starts.saturating_add(1);
    }

    fn on_expansion_end(&mut self) {
        self.left = self.left.saturating_sub(1);
        self.ends = self.ends.saturating_add(1);
    }
}

// A string, a list, pairs and no value in turn, from call to call, whatever is asked for.
#[derive(Drop)]
struct Alternating {
    turn: u8,
    ghost in_turn: { turn < 4 },
}

impl Alternating {
    fn new(turn: u8) -> Alternating {
        Alternating { turn: turn % 4 }
    }

    fn next(&mut self) -> u8
        ensures now { result ≡ self.old.turn }
        ensures next { self.new.turn ≡ (self.old.turn + 1) % 4 }
    {
        let turn = self.turn;
        self.turn = (turn + 1) % 4;
        turn
    }
}

impl DynamicContext for Alternating {
    ghost use Rattle.std.specs.Prelude.{Some, None, [], ◌∷◌, ◌+◌, ◌%◌, ◌==◌, codes, cond};
    ghost use Rattle.iri_template.specs.ShownValues.{undefined, string, list, pairs};

    ghost tells = { λ c. Some (λ k name purpose. cond ((c.turn + k) % 4 == 0) (string (codes "b c"))
        (cond ((c.turn + k) % 4 == 1) (list (codes "d" ∷ codes "e" ∷ []))
        (cond ((c.turn + k) % 4 == 2) (pairs ((codes "f", codes "g") ∷ [])) undefined))) };

    ghost starts = { λ c. None };

    ghost ends = { λ c. None };

    fn visit_dynamic<V: Visitor>(&mut self, visitor: &mut V) -> Result<(), Stop> {
        match self.next() {
            0 => visitor.visit_string(&"b c"),
            1 => visitor.visit_list_direct(&["d", "e"]),
            2 => visitor.visit_assoc_direct(&[("f", "g")]),
            _ => visitor.visit_undefined(),
        }
    }

    fn on_expansion_start(&mut self) {
        let _turn = self.next();
    }

    fn on_expansion_end(&mut self) {
        let _turn = self.next();
    }
}

// Each variable has this one string.
#[derive(Drop)]
struct Same<'a> {
    text: &'a str,
}

impl Context for Same<'_> {
    ghost use Rattle.iri_template.specs.ShownValues.{string};

    ghost value_of = { λ c name. string c.text.now };

    fn visit<V: Visitor>(&self, visitor: &mut V) -> Result<(), Stop> {
        visitor.visit_string(&self.text)
    }
}

// No variable has a value.
#[derive(Drop)]
struct Nothing;

impl Context for Nothing {
    ghost use Rattle.iri_template.specs.ShownValues.{undefined};

    ghost value_of = { λ c name. undefined };

    fn visit<V: Visitor>(&self, visitor: &mut V) -> Result<(), Stop> {
        visitor.visit_undefined()
    }
}

// The strings of RFC 6570 section 3.2 that stand in the tests.
static STRINGS: [(&str, &str); 5] = [
    ("var", "value"),
    ("path", "/foo/bar"),
    ("empty", ""),
    ("x", "1024"),
    ("y", "768"),
];

fn string_of(name: VarName<'_>) -> Option<&'static str> {
    for (key, text) in &STRINGS {
        if *key == name.as_str() {
            return Some(*text);
        }
    }
    None
}

// These strings, a list and pairs of that section. Of what it tells it says nothing to proofs.
#[derive(Drop)]
struct Variables;

impl DynamicContext for Variables {
    ghost use Rattle.std.specs.Prelude.{None};

    ghost tells = { λ c. None };

    ghost starts = { λ c. None };

    ghost ends = { λ c. None };

    fn visit_dynamic<V: Visitor>(&mut self, visitor: &mut V) -> Result<(), Stop> {
        match string_of(visitor.var_name()) {
            Some(text) => visitor.visit_string(&text),
            None => match visitor.var_name().as_str() {
                "list" => visitor.visit_list_direct(&["red", "green", "blue"]),
                "keys" => {
                    visitor.visit_assoc_direct(&[("semi", ";"), ("dot", "."), ("comma", ",")])
                }
                _ => visitor.visit_undefined(),
            },
        }
    }

    fn on_expansion_start(&mut self) {}

    fn on_expansion_end(&mut self) {}
}

// Kind and place of a refusal.
fn told(answer: Result<(), Error>) -> Option<(ErrorKind, usize)> {
    match answer {
        Ok(()) => None,
        Err(error) => Some((error.kind(), error.location())),
    }
}

#[test]
fn kind_that_changes(rt: HostRuntime) -> Result<(), Fail> {
    for text in ["x{v:3}", "x{v:3}{w}"] {
        let mut buf = [0u8; 20];
        let mut sink = SliceSink::new(&mut buf);
        let mut context = Turning::new(2);
        let template = UriTemplateStr::new(text)?;
        let result = template.expand_dynamic::<UriSpec, SliceSink<'_>, Turning>(
            &mut sink,
            &mut context,
        );
        assert_eq!(rt; told(result), Some((ErrorKind::UnexpectedValueType, 2)));
        assert_eq!(rt; sink.as_str(), "x");
        assert_eq!(rt; context.counts(), (2, 1, 1));
    }
    Ok(())
}

#[test]
fn kind_that_is_wrong_at_once(rt: HostRuntime) -> Result<(), Fail> {
    let mut buf = [0u8; 20];
    let mut sink = SliceSink::new(&mut buf);
    let mut context = Turning::new(1);
    let template = UriTemplateStr::new("x{/v,w:3,v}y")?;
    let result = template.expand_dynamic::<UriSpec, SliceSink<'_>, Turning>(
        &mut sink,
        &mut context,
    );
    same(&rt, told(result), Some((ErrorKind::UnexpectedValueType, 5)));
    same(&rt, sink.as_str(), "x/a");
    same(&rt, context.counts(), (3, 1, 1));
    Ok(())
}

#[test]
fn list_without_a_length(rt: HostRuntime) -> Result<(), Fail> {
    let mut context = Turning::new(2);
    let text = UriTemplateStr::new("x{?v*}y")?.expand_dynamic_to_string::<UriSpec, Turning>(
        rt.alloc(),
        &mut context,
    )?;
    same(&rt, text.as_str(), "x?v=ay");
    same(&rt, context.counts(), (2, 1, 1));
    Ok(())
}

// What an alternating context writes from this turn on, or the place of the first wrong kind.
static TURNS: [(u8, &str, Result<&str, usize>); 8] = [
    (0, "{a}{b}", Ok("f,gb%20c")),
    (0, "{?a,b,c*}", Ok("?a=f,g&b=b%20c&f=g")),
    (0, "{a}{b:2}", Ok("f,gb%20")),
    (0, "{a}-{b}-{c:2}", Err(9)),
    (0, "{#a:2}", Err(2)),
    (2, "{#a:1,b}", Ok("#b,f,g")),
    (3, "-{/a:2}", Err(3)),
    (3, "{/a}/{b}", Ok("/d,e/")),
];

#[test]
fn kinds_in_turn(rt: HostRuntime) -> Result<(), Fail> {
    for &(turn, text, want) in &TURNS {
        let mut context = Alternating::new(turn);
        let template = UriTemplateStr::new(text)?;
        match template.expand_dynamic_to_string::<UriSpec, Alternating>(rt.alloc(), &mut context) {
            Ok(got) => assert_eq!(rt; Ok(got.as_str()), want, "{text}"),
            Err(error) => {
                if error.kind() == ErrorKind::Memory {
                    return Err(error)?;
                }
                assert_eq!(rt; Err(error.location()), want, "{text}");
                assert_eq!(rt; error.kind(), ErrorKind::UnexpectedValueType, "{text}");
            }
        }
    }
    Ok(())
}

// A template with each operator, in portions: the place of each, and what it writes.
static EACH: &str = "a%41{var}b{+path,x}{#x}{.y}{/var,empty}{;x,empty}{?x,y}{&list*}{keys}z%20";

static PORTIONS: [(usize, &str); 16] = [
    (0, "a%41"),
    (5, "value"),
    (9, "b"),
    (12, "/foo/bar"),
    (17, ",1024"),
    (21, "#1024"),
    (25, ".768"),
    (29, "/value"),
    (33, "/"),
    (41, ";x=1024"),
    (43, ";empty"),
    (51, "?x=1024"),
    (53, "&y=768"),
    (57, "&list=red&list=green&list=blue"),
    (64, "semi,%3B,dot,.,comma,%2C"),
    (69, "z%20"),
];

// The place of the portion to which the byte of this number belongs, and how many bytes are written before it.
fn portion_at(n: usize) -> (usize, usize) {
    let mut end = 0usize;
    for (place, text) in &PORTIONS {
        let begin = end;
        end = end.saturating_add(text.len());
        if n < end {
            return (*place, begin);
        }
    }
    (usize::MAX, end)
}

// Into this many bytes: the refusal and what was written.
fn into_room(
    alloc: Global,
    text: &str,
    room: usize,
) -> Result<(Option<(ErrorKind, usize)>, String), Fail> {
    let mut buf = [0u8; 200];
    let room = room.min(buf.len());
    let mut sink = SliceSink::new(&mut buf[..room]);
    let template = UriTemplateStr::new(text)?;
    let result = template.expand_dynamic::<UriSpec, SliceSink<'_>, Variables>(
        &mut sink,
        &mut Variables,
    );
    Ok((told(result), sink.as_str().to_string(alloc)?))
}

fn whole(alloc: Global) -> Result<String, Fail> {
    let mut text = String::new(alloc);
    for (_, portion) in &PORTIONS {
        text.push_str(portion)?;
    }
    Ok(text)
}

#[test]
fn every_buffer_size(rt: HostRuntime) -> Result<(), Fail> {
    let whole = whole(rt.alloc())?;
    for room in 0..whole.len() {
        let (refusal, written) = into_room(rt.alloc(), EACH, room)?;
        let (place, begin) = portion_at(room);
        assert_eq!(rt;
            refusal,
            Some((ErrorKind::WriteFailed, place)),
            "{room} bytes"
        );
        assert!(rt;
            whole.as_str().starts_with(written.as_str()),
            "{room} bytes"
        );
        assert!(rt;
            begin <= written.len() && written.len() <= room,
            "{room} bytes"
        );
    }
    let (refusal, written) = into_room(rt.alloc(), EACH, whole.len())?;
    same(&rt, refusal, None);
    same(&rt, written.as_str(), whole.as_str());
    Ok(())
}

#[test]
fn place_of_a_separator(rt: HostRuntime) -> Result<(), Fail> {
    let (refusal, written) = into_room(rt.alloc(), "a{?x,y}", 1)?;
    same(&rt, refusal, Some((ErrorKind::WriteFailed, 3)));
    same(&rt, written.as_str(), "a");
    let (refusal, written) = into_room(rt.alloc(), "a{?x,y}", 8)?;
    same(&rt, refusal, Some((ErrorKind::WriteFailed, 5)));
    same(&rt, written.as_str(), "a?x=1024");
    Ok(())
}

#[test]
fn refusal_before_a_wrong_kind(rt: HostRuntime) -> Result<(), Fail> {
    let (refusal, written) = into_room(rt.alloc(), "{x}{list:2}", 3)?;
    same(&rt, refusal, Some((ErrorKind::WriteFailed, 1)));
    same(&rt, written.as_str(), "");
    let (refusal, written) = into_room(rt.alloc(), "{x}{list:2}", 4)?;
    same(&rt, refusal, Some((ErrorKind::UnexpectedValueType, 4)));
    same(&rt, written.as_str(), "1024");
    Ok(())
}

#[test]
fn too_little_room(rt: HostRuntime) -> Result<(), Fail> {
    let mut buf = [0u8; 3];
    let mut sink = SliceSink::new(&mut buf);
    let context = Same { text: "zz" };
    let template = UriTemplateStr::new("ab{v}cd")?;
    let result = laws::expanded_as_fixed::<IriSpec, SliceSink<'_>, Same<'_>>(
        template, &mut sink, &context,
    );
    same(&rt, told(result), Some((ErrorKind::WriteFailed, 3)));
    same(&rt, sink.as_str(), "ab");
    Ok(())
}

#[test]
fn no_value(rt: HostRuntime) -> Result<(), Fail> {
    let text = UriTemplateStr::new("hello/{world}")?.expand_dynamic_to_string::<
        IriSpec,
        Fixed<'_, Nothing>,
    >(rt.alloc(), &mut Fixed::new(&Nothing))?;
    same(&rt, text.as_str(), "hello/");
    Ok(())
}

#[test]
fn as_with_a_context(rt: HostRuntime) -> Result<(), Fail> {
    let context = Same { text: "a%20/b" };
    let template = UriTemplateStr::new(EACH)?;
    let text = template.expand_dynamic_to_string::<UriSpec, Fixed<'_, Same<'_>>>(
        rt.alloc(),
        &mut Fixed::new(&context),
    )?;
    let want = template
        .expand::<UriSpec, Same<'_>>(&context)?
        .try_to_string(rt.alloc())?;
    same(&rt, text.as_str(), want.as_str());
    Ok(())
}
