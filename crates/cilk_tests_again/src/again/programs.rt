//! The programs that these tests run, and a recorded schedule of one of them.

pub const FIBONACCI: &str = "#include <cilk.h>
cilk int fib (int n)
{
  int x = 0;
  inlet void summer (int result)
  {
    x += result;
    return;
  }
  if (n<2) return n;
  else {
    summer(spawn fib (n-1));
    summer(spawn fib (n-2));
    sync;
    return (x);
  }
}
cilk int main (void)
{
  int r;
  r = spawn fib (10);
  sync;
  return r;
}
";

pub const FIBONACCI_CANONICAL: &str = "#include <cilk.h>
cilk int fib(int n) {
    int x = 0;
    inlet void summer(int result) {
        x += result;
        return;
    }
    if (n < 2) {
        return n;
    } else {
        summer(spawn fib(n - 1));
        summer(spawn fib(n - 2));
        sync;
        return x;
    }
}
cilk int main(void) {
    int r;
    r = spawn fib(10);
    sync;
    return r;
}
";

// Two children read a variable and write it.
pub const COUNTING: &str = "int g; cilk void inc(void) { int t; t = g; g = t + 1; }
cilk int main(void) { spawn inc(); spawn inc(); sync; return g; }";

// The value of a child is too large.
pub const PASSING: &str = "cilk int f(void) { return 2147483647; }
cilk int main(void) { int x = 1; x += spawn f(); sync; return x; }";

// Children hold a lock in turn.
pub const ADDING: &str =
    "Cilk_lockvar l; int g; cilk void add(void) { Cilk_lock(l); g++; Cilk_unlock(l); }
cilk int main(void) { Cilk_lock_init(l); spawn add(); spawn add(); sync; return g; }";

// The first child that returns aborts the other.
pub const LOOKING: &str =
    "int done; cilk int look(int v) { printf(\"%d\\n\", v); done = done + 1; return v; }
cilk int main(void) { int best = 0; inlet void take(int v) { best = v; abort; }
take(spawn look(1)); take(spawn look(2)); sync; return best; }";

// Choice 8 returns `/1`, 10 delivers it, 12 marks `/2` as aborted, and 13 ends it.
pub const ABORTED: &str =
    "cilklog 1\nworkers 2\n1 step\n1 step\n2 steal 1\n2 step\n2 step\n1 step\n1 step\n1 step\n1 steal 2\n\
     1 step\n1 step\n1 step\n2 step\n1 step\n1 step\n1 step\nend 16\n";

// Children are spawned, and their values go through an inlet, which aborts the other; a C function is called, a lock is held, and something is printed.
pub const ALL: &str = "Cilk_lockvar l; int done; int same(int n) { return n; }
cilk int f(int n) { int r; r = same(n); Cilk_lock(l); printf(\"%d\\n\", r); done = done + 1; Cilk_unlock(l); return r; }
cilk int main(void) { int got; inlet void found(int v) { got = v; abort; }
Cilk_lock_init(l); found(spawn f(1)); found(spawn f(2)); sync; return got; }";

// A lock is taken by who holds it.
pub const LOCKED_TWICE: &str =
    "Cilk_lockvar l; cilk int main(void) { Cilk_lock_init(l); Cilk_lock(l); Cilk_lock(l); return 0; }";

// A lock is taken that was never made free.
pub const NEVER_SET: &str = "Cilk_lockvar l; cilk int main(void) { Cilk_lock(l); return 0; }";

// One worker has two steps.
pub const PRODUCT: &str = "cilk int main(void) { int x = 2; return x * 21; }";

// A child is trapped.
pub const DIVIDING: &str = "cilk int f(int n) { return 1 / n; }
cilk int main(void) { int x; x = spawn f(0); sync; return x; }";
