//! Programs that are the same, places aside, and such that are not.

use super::program;
use crate::alike::Same;
use std::alloc::Global;
use std::process::Abort;

const SAME: &str =
    "cilk int main(){int a=2,b;b=a*(3+4)-5;return b;} and        cilk int main(){int a=2,b;b=a*(3+4)-5;return b;}
cilk int main(){int a=2,b;b=a*(3+4)-5;return b;} and cilk int main(void) {     int a = 2;     int b;     b = (a * (3 + 4)) - 5;     return b; } 
cilk int f(){x++;} and cilk int f(){  x++;}
cilk int f(){++x;} and cilk int f(){x++;}
cilk int f(){x+=1;} and cilk int f(){x+=1;}
cilk void f(int a, int b) { return; } and cilk void f(int a,                  int b) { return; }
int g=5; and      int g=5;
cilk int f(){spawn f(7,1+2);} and cilk int f(){spawn f(7,1+2);}
cilk int f(){sync;} and cilk int f(){      sync;}
cilk int f(){x=spawn f();} and cilk int f(){  x=  spawn f();}
cilk void f() { ; spawn f(); sync; } and cilk void f() { ;  spawn f ( ) ; sync ; }
int f(void){if(x)return 010;return a[1];} and int f(){if (x) { return 8; } /* nothing */ return a[(1)];}
void f(){for(;;)printf(\"a\\n\");} and void f ( void ) { for ( ; 1 ; ) { printf(\"a\\n\") ; } }
void f(int a){switch(a){int b;case 010:default:a=1;case - 0:;}} and void f(int a) { switch (a) { int b; case 8: default: a = 1; case 0: ; } }
cilk int f(int n){inlet void g(int r){abort;} g(spawn f(n-1));sync;} and cilk int f(int n) { inlet void g(int r) { abort; } g(spawn f(n - 1)); sync; }";

const OTHER: &str =
    "cilk int main(){int a=2,b;b=a*(3+4)-5;return b;} and cilk int main(){int a=2,b;b=a/(3+4)-5;return b;}
cilk int f(){x++;} and cilk int f(){x--;}
cilk int f(){x++;} and cilk int f(){x+=1;}
cilk int f(){x++;} and cilk int f(){;}
cilk int f(){x+=1;} and cilk int f(){x-=1;}
cilk void f(int a,int b){return;} and cilk void f(int a,int c){return;}
cilk void f(int a,int b){return;} and cilk int f(int a,int b){return;}
int g=5; and int h=5;
int g=5; and int g=-5;
int g=5; and int g;
int g; and int g=0;
cilk int f(){spawn f(7,1+2);} and cilk int f(){spawn g(7,1+2);}
cilk int f(){spawn f(7,1+2);} and cilk int f(){spawn f();}
cilk int f(){spawn f(7,1+2);} and cilk int f(){sync;}
cilk int f(){x=spawn f();} and cilk int f(){x+=spawn f();}
cilk int f(){x=spawn f();} and cilk int f(){spawn f();}
int f(){return 1;} and cilk int f(){return 1;}
int a[2]; and int a[3];
void f(){if(x)y=1;} and void f(){if(x)y=1;else y=1;}
void f(){while(x)y=1;} and void f(){do y=1; while(x);}
void f(){break;} and void f(){continue;}
void f(){switch(x){case 1:;}} and void f(){switch(x){case -1:;}}
void f(){switch(x){case 0:;}} and void f(){switch(x){default:;}}
void f(){switch(x){case 1:;}} and void f(){switch(x){;}}
void f(){switch(x){;}} and void f(){switch(y){;}}
void f(){switch(x){;}} and void f(){while(x){;}}
void f(){printf(\"a\");} and void f(){printf(\"b\");}
void f(){Cilk_lock(x);} and void f(){Cilk_unlock(x);}
cilk void f(){inlet void g(){} } and cilk void f(){inlet void h(){} }
int f(int); and int f(int, int);
#include <stdio.h> and #include <stdlib.h>";

fn is_same(rt: &impl Abort, alloc: Global, text: &str, other: &str) -> bool {
    let program = program(rt, alloc, text);
    program.same(&super::program(rt, alloc, other))
}

#[test]
fn same_programs_and_others(rt: HostRuntime) {
    for (table, same) in [(SAME, true), (OTHER, false)] {
        for line in table.lines() {
            let (text, other) = line.split_once(" and ").expect(&rt, line);
            assert_eq!(rt; is_same(&rt, rt.alloc(), text, other), same, "{line}");
            assert_eq!(rt; is_same(&rt, rt.alloc(), other, text), same, "{line}");
        }
    }
}

#[test]
fn the_empty_text_is_a_program_of_nothing(rt: HostRuntime) {
    let empty = program(&rt, rt.alloc(), "");
    assert!(rt; empty.headers.is_empty());
    assert!(rt; empty.items.is_empty());
}
