//! Pages with texts that look like markup, and with each kind of what is drawn.

use sf_page::{
    Mark, Page, Part, Scene, Shape, Span, Step, Track, TrackKind, Value, Verdict, make_page,
};
use std::alloc::{AllocError, Global};

/// A text that would end an element and begin another.
const HOSTILE: &str = "</p><script>\"&'";
/// How it stands in a page.
const ESCAPED: &str = "&lt;/p&gt;&lt;script&gt;&quot;&amp;&#39;";
/// No place of a source.
const NOWHERE: Span = Span {
    line: 0,
    column: 0,
    end_line: 0,
    end_column: 0,
};

/// How often a text stands in bytes.
fn count_of(bytes: &[u8], wanted: &str) -> usize {
    let mut count: usize = 0;
    for k in 0..bytes.len() {
        if bytes[k..].starts_with(wanted.as_bytes()) {
            count = count.saturating_add(1);
        }
    }
    count
}

/// A text.
fn text(alloc: Global, words: &str) -> Result<Vec<u8>, AllocError> {
    Vec::from_slice(alloc, words.as_bytes())
}

/// A page with nothing on it but a title.
fn bare_page(alloc: Global, title: &str) -> Result<Page, AllocError> {
    Ok(Page {
        title: text(alloc, title)?,
        summary: Vec::new(alloc),
        source: Vec::new(alloc),
        marks: Vec::new(alloc),
        tracks: Vec::new(alloc),
        run: None,
    })
}

/// A cell with one field.
fn cell(alloc: Global, at: &str, name: &str, term: &str) -> Result<Part, AllocError> {
    let mut fields = Vec::new(alloc);
    fields.push(Value {
        name: text(alloc, name)?,
        term: text(alloc, term)?,
    })?;
    Ok(Part {
        label: Vec::new(alloc),
        shape: Shape::Cell {
            at: text(alloc, at)?,
            fields,
        },
        gone: false,
        owner: None,
    })
}

/// A segment of a list that was handed over.
fn segment(alloc: Global, at: &str, to: &str) -> Result<Part, AllocError> {
    Ok(Part {
        label: Vec::new(alloc),
        shape: Shape::List {
            at: text(alloc, at)?,
            to: text(alloc, to)?,
        },
        gone: true,
        owner: Some(1),
    })
}

/// A scene with that heap.
fn scene(alloc: Global, heap: Vec<Part>) -> Scene {
    Scene {
        variables: Vec::new(alloc),
        differ: Vec::new(alloc),
        heap,
        wanted: Vec::new(alloc),
        tasks: Vec::new(alloc),
    }
}

/// A proof of one step with that scene, of which five more are left out.
fn track(alloc: Global, name: &str, shown: Scene) -> Result<Track, AllocError> {
    let mut steps = Vec::new(alloc);
    steps.push(Step {
        depth: 0,
        span: NOWHERE,
        name: text(alloc, name)?,
        rule: text(alloc, name)?,
        fails: false,
        scene: Some(shown),
    })?;
    Ok(Track {
        kind: TrackKind::Proof,
        name: text(alloc, name)?,
        span: NOWHERE,
        verdict: Verdict::Fine,
        said: text(alloc, name)?,
        steps,
        left_out: 5,
        failure: None,
    })
}

/// A page with a text wherever one may stand: once as a title and once as a heading, twice in the
/// source, four times in a proof, and three times in a drawing.
fn page_of(alloc: Global, words: &str) -> Result<Page, AllocError> {
    let mut page = bare_page(alloc, words)?;
    page.source.push(text(alloc, words)?)?;
    page.marks.push(Mark {
        span: Span {
            line: 1,
            column: 1,
            end_line: 1,
            end_column: 1,
        },
        said: text(alloc, words)?,
    })?;
    let mut heap = Vec::new(alloc);
    heap.push(cell(alloc, words, words, words)?)?;
    page.tracks.push(track(alloc, words, scene(alloc, heap))?)?;
    Ok(page)
}

#[test]
fn texts_that_look_like_markup_are_shown(rt: HostRuntime) -> Result<(), AllocError> {
    let alloc = rt.alloc();
    let bytes = make_page(alloc, &page_of(alloc, HOSTILE)?)?;
    assert_eq!(rt; count_of(&bytes, ESCAPED), 11);
    assert_eq!(rt; count_of(&bytes, HOSTILE), 0);
    assert_eq!(rt; count_of(&bytes, "<script>"), 1);
    Ok(())
}

#[test]
fn cells_and_segments_are_boxes_and_fields_are_arrows(rt: HostRuntime) -> Result<(), AllocError> {
    let alloc = rt.alloc();
    let mut heap = Vec::new(alloc);
    heap.push(cell(alloc, "s1", "tl", "s2")?)?;
    heap.push(segment(alloc, "s2", "nil")?)?;
    let mut page = bare_page(alloc, "two")?;
    page.tracks.push(track(alloc, "add", scene(alloc, heap))?)?;
    let bytes = make_page(alloc, &page)?;
    assert_eq!(rt; count_of(&bytes, "<rect class=\"cell\""), 1);
    assert_eq!(rt; count_of(&bytes, "<rect class=\"dashed\""), 1);
    assert_eq!(rt; count_of(&bytes, "<path class=\"arrow\""), 1);
    assert_eq!(rt; count_of(&bytes, "data-owner=\"1\" data-gone=\"1\""), 1);
    Ok(())
}

#[test]
fn steps_that_are_not_on_a_page_are_counted(rt: HostRuntime) -> Result<(), AllocError> {
    let alloc = rt.alloc();
    let mut page = bare_page(alloc, "long")?;
    page.tracks
        .push(track(alloc, "add", scene(alloc, Vec::new(alloc)))?)?;
    let bytes = make_page(alloc, &page)?;
    assert_eq!(rt;
        count_of(&bytes, "folded: 5 further steps are not on this page"),
        1
    );
    assert_eq!(rt; count_of(&bytes, "<li class=\"step\""), 1);
    Ok(())
}
