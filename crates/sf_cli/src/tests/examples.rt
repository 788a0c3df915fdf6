//! The files of examples/, copied, and the answers to them, worked out by hand.

/// The files of examples/, and their answers.
pub const EXAMPLES: [(&str, &str); 21] = [
    (
        "set(x) [x|->] { x->tl = 3; } [x|->tl:3]\n",
        "accepted\nprocedure set\nadd\nmutate 1\nreturn\ncell 1\nend\n",
    ),
    (
        "swap(x, y) [x|->tl:y * y|->tl:x] {
  x->tl = x;
  y->tl = y;
  x->hd = y;
  y->hd = x;
} [x|->tl:x,hd:y * y|->hd:x]
",
        "accepted; procedure swap
add; add; mutate 1; mutate 2; mutate 1; mutate 2; return; cell 1; cell 2; end
",
    ),
    (
        "leak(x, y) [x|-> * y|->] {\n  y->tl = x;\n} [y|->tl:x]\n",
        "failed leak at 3:1 Leak
vars x = s0, y = s1
apart s0 != nil, s1 != nil
atoms 1: s0|->
taken 2: s1|->tl:s0
want emp
",
    ),
    (
        "twice(x) [x|-> * x|->] { } [x|->hd:1]\n",
        "accepted\nprocedure twice\nadd\nadd\nabsurd\n",
    ),
    (
        "/* A list is turned round in place: cell by cell, from the front of what is left to the front of the answer. */
reverse(turned; rest) [list(rest)] {
  local next;
  turned = nil;
  while (rest != nil) [list(rest) * list(turned)] {
    next = rest->tl;
    rest->tl = turned;
    turned = rest;
    rest = next;
  }
} [list(turned)]
",
        "accepted; procedure reverse
add; assign; assign; loop; exact 1; empty; around; add; add; add; unroll 2; look 4; mutate 4
assign; assign; again; exact 5; head 4; exact 3; end; add; add; add; drop 2; return; exact 3; end
",
    ),
    (
        "/* A walk to the last cell of one list, whose link then leads to the other. */
append(first; more) [list(first) * list(more)] {
  local last, next;
  if (first == nil) {
    first = more;
  } else {
    last = first;
    next = last->tl;
    while (next != nil) [ls(first, last) * last|->tl:next * list(next) * list(more)] {
      last = next;
      next = next->tl;
    }
    last->tl = more;
  }
} [list(first)]
",
        "accepted; procedure append
add; add; split s0 nil; drop 1; then; assign; return; exact 2; end; else; assign; unroll 1; look 3
loop; empty; cell 3; exact 4; exact 2; around; add; add; add; add; add; assign; unroll 7; look 9
again; split s0 s4; force 5; absurd; join 5; head 6; empty; cell 9; exact 10; exact 8; end; add
add; add; add; add; drop 7; mutate 6; return; join 5; head 6; exact 8; end
",
    ),
    (
        "/* As append.sf, but the first list may be empty, and then it has no last cell. */
append(first; more) [list(first) * list(more)] {
  local last, next;
  last = first;
  next = last->tl;
  while (next != nil) [ls(first, last) * last|->tl:next * list(next) * list(more)] {
    last = next;
    next = next->tl;
  }
  last->tl = more;
} [list(first)]
",
        "failed append at 5:3 NoCell
vars first = nil, more = nil, last = nil, next = nil
apart
atoms
taken
want cell nil
",
    ),
    (
        "/* A tree is turned to the right: the left child becomes the root, and the old root its right child. */
rotate(root;) [tree(root)] {
  local child, inner;
  if (root != nil) {
    child = root->l;
    if (child != nil) {
      inner = child->r;
      root->l = inner;
      child->r = root;
      root = child;
    }
  }
} [tree(root)]
",
        "accepted; procedure rotate
add; split s0 nil; drop 1; else; return; empty; end; then; unroll 1; look 2; split s1 nil; drop 3
else; return; node 2; empty; exact 4; end; then; unroll 3; look 5; mutate 2; mutate 5; assign
return; node 5; exact 6; node 2; exact 7; exact 4; end
",
    ),
    (
        "/* All cells of a tree are given up, those of the subtrees first; nothing is left. */
fell(root) [tree(root)] {
  local left, right;
  if (root != nil) {
    left = root->l;
    right = root->r;
    fell(left);
    fell(right);
    dispose(root);
  }
}
",
        "accepted; procedure fell
add; split s0 nil; drop 1; else; return; end; then; unroll 1; look 2; look 2; call; exact 3; give
call; exact 4; give; dispose 2; return; end
",
    ),
    (
        "/* Every second cell of a list is given up: two procedures call each other in turn. */
keep(at;) [list(at)] {
  local next;
  if (at != nil) {
    next = at->tl;
    skip(next;);
    at->tl = next;
  }
} [list(at)]
skip(at;) [list(at)] {
  local gone;
  if (at != nil) {
    gone = at;
    at = gone->tl;
    dispose(gone);
    keep(at;);
  }
} [list(at)]
",
        "accepted; procedure keep
add; split s0 nil; drop 1; else; return; empty; end; then; unroll 1; look 2; call; exact 3; give
add; mutate 2; return; head 2; exact 4; end
procedure skip
add; split s0 nil; drop 1; else; return; empty; end; then; assign; unroll 1; look 2; dispose 2
call; exact 3; give; add; return; exact 4; end
",
    ),
    (
        "/* Cells that nobody uses, behind a resource: one is handed out, or made where there is none, and one is put back. */
resource pool (spare) [list(spare)]
obtain(cell;) {
  with pool when (true) {
    if (spare == nil) {
      cell = new();
    } else {
      cell = spare;
      spare = cell->tl;
    }
  }
} [cell|->]
put_back(cell) [cell|->] {
  with pool when (true) { cell->tl = spare; spare = cell; }
}
",
        "accepted; procedure obtain
enter; add; split s1 nil; drop 1; then; new; exit; empty; give; return; cell 2; end; else; assign
unroll 1; look 2; exit; exact 3; give; return; cell 2; end
procedure put_back
add; enter; add; mutate 1; assign; exit; head 1; exact 2; give; return; end
",
    ),
    (
        "/* One place through which a cell goes from one thread to another; `full` says whether a cell is in it. */
resource place (held, full) [if full == 1 then held|-> else emp]
send(cell) [cell|->] {
  with place when (full != 1) { held = cell; full = 1; }
}
receive(cell;) {
  with place when (full == 1) { cell = held; full = 0; }
} [cell|->]
producer() { local cell; cell = new(); cell->hd = 7; send(cell); }
consumer() { local cell; receive(cell;); dispose(cell); }
both() { producer() || consumer(); }
",
        "accepted; procedure send
add; enter; split s2 1; then; add; add; absurd; else; add; assign; assign; exit; then; cell 1
give; return; end
procedure receive
enter; split s2 1; then; add; add; assign; assign; exit; else; give; return; cell 1; end; else
add; absurd
procedure producer
new; mutate 1; call; cell 1; give; return; end
procedure consumer
call; give; add; dispose 1; return; end
procedure both
fork; give; return; end
",
    ),
    (
        "/* Two workers take jobs from one list, do them on their own, and hang them into another, until no job is left. */
resource jobs (todo) [list(todo)]
resource results (done) [list(done)]
worker() {
  local job;
  with jobs when (true) {
    job = todo;
    if (job != nil) todo = job->tl;
  }
  if (job != nil) {
    job->hd = 1;
    with results when (true) { job->tl = done; done = job; }
    worker();
  }
}
both() { worker() || worker(); }
",
        "accepted; procedure worker
enter; add; assign; split s0 nil; drop 1; else; exit; empty; give; else; return; end; then
unroll 1; look 2; exit; exact 3; give; then; mutate 2; enter; add; mutate 2; assign; exit; head 2
exact 4; give; call; give; return; end
procedure both
fork; give; return; end
",
    ),
    (
        "/* As fell.sf, but both subtrees at once, each by a thread of its own: they have no cell in common. */
fell(root) [tree(root)] {
  local left, right;
  if (root != nil) {
    left = root->l;
    right = root->r;
    fell(left) || fell(right);
    dispose(root);
  }
}
",
        "accepted; procedure fell
add; split s0 nil; drop 1; else; return; end; then; unroll 1; look 2; look 2; fork; exact 3
exact 4; give; dispose 2; return; end
",
    ),
    (
        "/* As buffer.sf, but the cell is written after it has been sent, when the receiver may have given it up. */
resource place (held, full) [if full == 1 then held|-> else emp]
send(cell) [cell|->] {
  with place when (full != 1) { held = cell; full = 1; }
  cell->hd = 7;
}
receive(cell;) {
  with place when (full == 1) { cell = held; full = 0; }
} [cell|->]
",
        "failed send at 5:3 NoCell
vars cell = s0
apart s0 != nil, s2 != 1
atoms
taken
want cell s0
",
    ),
    (
        "/* Two threads would write one field of one cell: it can't be handed to both. */
mark(cell) [cell|->] { cell->hd = 1; } [cell|->]
both(cell) [cell|->] { mark(cell) || mark(cell); } [cell|->]
",
        "failed both at 3:38 NoAtom
vars cell = s0
apart s0 != nil
atoms
taken 1: s0|->
want s0|->
",
    ),
    (
        "/* The count is read while another thread may be changing it. */
resource tally (count) []
record(number) { with tally when (true) { count = number; } }
look(number;) { number = count; }
both(number;) { record(1) || look(number;); }
",
        "file refused: 30 NotHeld at 4:26 count\n",
    ),
    (
        "/* Two procedures enter the same two resources in opposite order. All of it is proved; but each may have one and wait for
   the other, and then neither goes on. `order` shows that circle. */
resource orders (last) [emp]
resource stock (pieces) [emp]

sell() [emp] {
  with orders when (true) {
    with stock when (true) { pieces = last; }
  }
} [emp]

count() [emp] {
  with stock when (true) {
    with orders when (true) { last = pieces; }
  }
} [emp]

main() { sell() || count(); }
",
        "accepted; procedure sell
enter; enter; assign; exit; give; exit; give; return; end
procedure count
enter; enter; assign; exit; give; exit; give; return; end
procedure main
fork; give; return; end
",
    ),
    (
        "/* A doubly linked list, with its first and its last cell at hand: a cell is added behind the last one, one is taken out of
   the middle, and all are visited from the back. */
hd, tl, pv;

add(first, last; value) [dll(first,nil,last,nil)] {
  local cell;
  cell = new();
  cell->hd = value;
  cell->tl = nil;
  cell->pv = last;
  if (last == nil) first = cell;
  else last->tl = cell;
  last = cell;
} [dll(first,nil,last,nil)]

remove(first, last; cell) [dll(first,nil,_before,cell) * cell|->tl:_after,pv:_before * dll(_after,cell,last,nil)] {
  local before, after;
  before = cell->pv;
  after = cell->tl;
  if (before == nil) first = after;
  else before->tl = after;
  if (after == nil) last = before;
  else after->pv = before;
  dispose(cell);
} [dll(first,nil,last,nil)]

clear(first, last) [dll(first,nil,last,nil)] {
  local at, after;
  at = last;
  while (at != nil) [dll(first,nil,at,after) * dll(after,at,last,nil)] {
    at->hd = nil;
    after = at;
    at = at->pv;
  }
} [dll(first,nil,last,nil)]
",
        "accepted; procedure add
add; new; mutate 2; mutate 2; mutate 2; split s1 nil; then; assign; assign; return; head 2; empty
split s0 nil; drop 1; end; absurd; else; split s0 nil; force 1; absurd; back 1; mutate 4; assign
return; join 3; head 4; head 2; empty; end
procedure remove
add; add; add; look 1; look 1; split s4 nil; then; assign; split s3 nil; force 3; drop 3; then
assign; dispose 1; return; empty; split s0 s1; drop 2; end; absurd; else; unroll 3; mutate 4
dispose 1; return; head 4; exact 5; split s0 s2; drop 2; end; absurd; else; split s0 s2; force 2
absurd; back 2; mutate 5; split s3 nil; force 3; drop 3; then; assign; dispose 1; return
split s0 nil; absurd; join 4; head 5; empty; end; else; unroll 3; mutate 6; dispose 1; return
split s0 nil; absurd; join 4; head 5; head 6; exact 7; end
procedure clear
add; assign; loop; exact 1; empty; around; add; add; add; split s0 s3; force 2; absurd; back 2
mutate 5; assign; look 5; again; exact 4; head 5; exact 3; end; add; add; add; return
split s0 nil; force 2; drop 2; force 3; drop 3; empty; end; join 2; exact 3; end
",
    ),
    (
        "/* As in doubly.sf, but the cell behind the one that is taken out still points back at it. */
hd, tl, pv;

remove(first, last; cell) [dll(first,nil,_before,cell) * cell|->tl:_after,pv:_before * dll(_after,cell,last,nil)] {
  local before, after;
  before = cell->pv;
  after = cell->tl;
  if (before == nil) first = after;
  else before->tl = after;
  if (after == nil) last = before;
  dispose(cell);
} [dll(first,nil,last,nil)]
",
        "failed remove at 12:1 NotEqual
vars first = s3, last = s1, cell = s0, before = nil, after = s3
apart s0 != nil, s3 != nil
atoms 3: dll(s3,s0,s1,nil)
taken
want s0 == nil
",
    ),
    (
        "/* Jobs in a doubly linked list that threads share: its owner puts jobs at the back and takes the newest from there, and others
   take the oldest from the front. */
hd, tl, pv;

resource jobs (front, back) [dll(front,nil,back,nil)]

init() { front = nil; back = nil; }

put(value) {
  local job;
  job = new();
  job->hd = value;
  job->tl = nil;
  with jobs when (true) {
    job->pv = back;
    if (back == nil) front = job;
    else back->tl = job;
    back = job;
  }
}

take(value;) {
  local job;
  with jobs when (back != nil) {
    job = back;
    back = job->pv;
    if (back == nil) front = nil;
    else back->tl = nil;
  }
  value = job->hd;
  dispose(job);
}

steal(value;) {
  local job;
  with jobs when (front != nil) {
    job = front;
    front = job->tl;
    if (front == nil) back = nil;
    else front->pv = nil;
  }
  value = job->hd;
  dispose(job);
}

both(newest, oldest;) {
  put(1);
  put(2);
  take(newest;) || steal(oldest;);
}
",
        "accepted; procedure init
assign; assign; return; empty; end
procedure put
new; mutate 1; mutate 1; enter; add; mutate 1; split s3 nil; then; assign; assign; exit; head 1
empty; give; return; split s2 nil; drop 2; end; absurd; else; split s2 nil; force 2; absurd
back 2; mutate 4; assign; exit; join 3; head 4; head 1; empty; give; return; end
procedure take
enter; add; add; assign; split s1 nil; force 1; absurd; back 1; look 3; split s3 nil; then; assign
exit; empty; give; look 3; dispose 3; return; split s1 s2; drop 2; end; absurd; else; split s1 s2
force 2; absurd; back 2; mutate 5; exit; join 4; head 5; empty; give; look 3; dispose 3; return
end
procedure steal
enter; add; add; assign; unroll 1; look 2; split s3 nil; force 3; drop 3; then; assign; exit
empty; give; look 2; dispose 2; return; end; else; unroll 3; mutate 4; exit; head 4; exact 5; give
look 2; dispose 2; return; end
procedure both
call; give; call; give; fork; give; return; end
",
    ),
];
