//! Runs over doubly linked lists, and schedules.

/// What a run ends with, or why there is no start.
pub const RUNS_OF_DOUBLES: [(&str, &str, &str, u8); 25] = [
    (
        "run last.sf last given",
        "v = nil\nx = @1\nl = @2\n@1 tl=@2\n@2 pv=@1\n",
        "finished\nv = @1\nx = @1\nl = @2\n@1 tl=@2 pv=nil\n@2 tl=nil pv=@1\n",
        0,
    ),
    // The second cell leads back to nothing
    (
        "run last.sf last given",
        "v = nil\nx = @1\nl = @2\n@1 tl=@2\n@2\n",
        "start refused: 74 Unmet pre\n",
        5,
    ),
    // The first one leads back to another
    (
        "run last.sf last given",
        "v = nil\nx = @1\nl = @2\n@1 tl=@2 pv=@2\n@2 pv=@1\n",
        "start refused: 74 Unmet pre\n",
        5,
    ),
    // The last cell is another
    (
        "run last.sf last given",
        "v = nil\nx = @1\nl = @1\n@1 tl=@2\n@2 pv=@1\n",
        "start refused: 74 Unmet pre\n",
        5,
    ),
    // A circle
    (
        "run last.sf last given",
        "v = nil\nx = @1\nl = @2\n@1 tl=@2\n@2 tl=@1 pv=@1\n",
        "start refused: 74 Unmet pre\n",
        5,
    ),
    // A link to a number
    (
        "run last.sf last given",
        "v = nil\nx = @1\nl = @1\n@1 tl=7\n",
        "start refused: 74 Unmet pre\n",
        5,
    ),
    // No cell
    (
        "run last.sf last given",
        "v = nil\nx = nil\nl = nil\n",
        "start refused: 74 Unmet pre\n",
        5,
    ),
    // One cell
    (
        "run last.sf last given",
        "v = 3\nx = @4\nl = @4\n@4\n",
        "finished\nv = nil\nx = @4\nl = @4\n@4 tl=nil pv=nil\n",
        0,
    ),
    // One cell more
    (
        "run last.sf last given",
        "v = nil\nx = @1\nl = @2\n@1 tl=@2\n@2 pv=@1\n@3 pv=@2\n",
        "start refused: 75 LeftOver @3\n",
        5,
    ),
    // To an empty list
    (
        "run ends.sf add given",
        "x = nil\nl = nil\n",
        "finished\nx = @1\nl = @1\n@1 tl=nil pv=nil\n",
        0,
    ),
    // Behind two
    (
        "run ends.sf add given",
        "x = @1\nl = @2\n@1 tl=@2\n@2 pv=@1\n",
        "finished\nx = @1\nl = @3\n@1 tl=@2 pv=nil\n@2 tl=@3 pv=@1\n@3 tl=nil pv=@2\n",
        0,
    ),
    // The middle of three
    (
        "run ends.sf drop given",
        "x = @1\nl = @3\nm = @2\n@1 tl=@2\n@2 tl=@3 pv=@1\n@3 pv=@2\n",
        "finished\nx = @1\nl = @3\nm = @2\n@1 tl=@3 pv=nil\n@3 tl=nil pv=@1\n",
        0,
    ),
    // The only one
    (
        "run ends.sf drop given",
        "x = @1\nl = @1\nm = @1\n@1\n",
        "finished\nx = nil\nl = nil\nm = @1\n",
        0,
    ),
    // One that isn't in the list
    (
        "run ends.sf drop given",
        "x = @1\nl = @1\nm = @2\n@1\n@2\n",
        "start refused: 74 Unmet pre\n",
        5,
    ),
    // Nothing, between two values
    (
        "run ends.sf part given",
        "x = 7\np = @9\nl = @9\ny = 7\n",
        "finished\nx = 7\np = @9\nl = @9\ny = 7\n",
        0,
    ),
    // The same, whose last cell isn't what is before it
    (
        "run ends.sf part given",
        "x = 7\np = @9\nl = nil\ny = 7\n",
        "start refused: 74 Unmet pre\n",
        5,
    ),
    // Up to a value at which no cell is
    (
        "run ends.sf part given",
        "x = @1\np = 3\nl = @2\ny = -5\n@1 tl=@2 pv=3\n@2 tl=-5 pv=@1\n",
        "finished\nx = @1\np = 3\nl = @2\ny = -5\n@1 tl=@2 pv=3\n@2 tl=-5 pv=@1\n",
        0,
    ),
    // Up to where it begins
    (
        "run ends.sf part given",
        "x = @1\np = nil\nl = nil\ny = @1\n@1 tl=@1 pv=@1\n",
        "start refused: 75 LeftOver @1\n",
        5,
    ),
    // From a fresh start
    (
        "run jobs.sf put given",
        "",
        "finished\nd.a = @4\nd.b = @4\n@4 tl=nil pv=nil\n",
        0,
    ),
    (
        "run jobs.sf put given",
        "d.a = @1\nd.b = @2\n@1 tl=@2\n@2 pv=@1\n",
        "finished\nd.a = @1\nd.b = @3\n@1 tl=@2 pv=nil\n@2 tl=@3 pv=@1\n@3 tl=nil pv=@2\n",
        0,
    ),
    (
        "run jobs.sf take given",
        "x = nil\nd.a = @1\nd.b = @2\n@1 tl=@2\n@2 pv=@1\n",
        "finished\nx = @2\nd.a = @1\nd.b = @1\n@1 tl=nil pv=nil\n@2 tl=nil pv=@1\n",
        0,
    ),
    (
        "run jobs.sf take given --waits 5",
        "x = nil\nd.a = nil\nd.b = nil\n",
        "spent waits: task 0 resource d tries 5\n",
        6,
    ),
    (
        "run jobs.sf take given",
        "x = nil\nd.a = @1\nd.b = @1\n@1 tl=@2\n@2 pv=@1\n",
        "start refused: 74 Unmet resource d\n",
        5,
    ),
    (
        "journal last.sf last given",
        "v = nil\nx = @1\nl = @2\n@1 tl=@2\n@2 pv=@1\n",
        "finished\nv = @1\nx = @1\nl = @2\n@1 tl=@2 pv=nil\n@2 tl=nil pv=@1\nschedule\n0 3\n",
        0,
    ),
    ("order jobs.sf", "", "order\n0 d\n", 0),
];

/// Steps past the end, and two tasks at both ends.
const AT_ENDS: &str = "tl, pv;
past(v; x, l) [x != nil * dll(x,nil,l,nil)] { v = l->tl; v = v->pv; } [dll(x,nil,l,nil)]
front(x) [] { x->pv = nil; }
back(l) [] { l->tl = nil; }
both(x, l) [x != nil * dll(x,nil,l,nil)] { front(x) || back(l); } [dll(x,nil,l,nil)]";

/// What schedules over these show.
pub const REPLAYS_OF_DOUBLES: [(&str, &str, &str, &str, &str, u8); 5] = [
    (
        AT_ENDS,
        "past",
        "v = nil\nx = @1\nl = @1\n@1",
        "",
        "no such step",
        0,
    ),
    (
        AT_ENDS,
        "past",
        "v = nil\nx = @1\nl = @1\n@1",
        "0 5",
        "step 1: task 0 absent nil",
        10,
    ),
    (
        AT_ENDS,
        "past",
        "v = nil\nx = @1\nl = @2\n@1 tl=@2\n@2",
        "0 5",
        "start refused: 74 Unmet pre",
        5,
    ),
    (
        AT_ENDS,
        "both",
        "x = @1\nl = @1\n@1",
        "0 2",
        "step 1: tasks 0.1 0.2 race on @1",
        10,
    ),
    (
        AT_ENDS,
        "both",
        "x = @1\nl = @2\n@1 tl=@2\n@2 pv=@1",
        "0 3\n0.2 5\n0.1 4",
        "no such step",
        0,
    ),
];
