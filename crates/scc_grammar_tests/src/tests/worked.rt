//! Whole sources and their trees.

/// A template whose constant is that of another instance, and its end as a specialisation.
pub const LOGARITHM: &str = "#include <systemc.h>
template<int N> struct clog2 { static const int value = 1 + clog2<(N + 1) / 2>::value; };
template<> struct clog2<1> { static const int value = 0; };
SC_MODULE(K) {
  sc_in<sc_uint<clog2<1024>::value> > p;
  SC_CTOR(K) {}
};
";

pub const LOGARITHM_TREE: &str =
    "(class clog2 (int N) (constant const s32 value (1 + (:: (clog2 ((N + 1) / 2)) value)))) \
    (class clog2 (special 1) (constant const s32 value 0)) \
    (module K (ctor K {}) (field (in (sc_uint (:: (clog2 1024) value))) p 0))";

/// A module template, and a module that makes four of it by `new`.
pub const STAGES: &str = "#include <systemc.h>
template<int W> SC_MODULE(Stage) {
  sc_in<bool> clk, rst;
  sc_in<sc_uint<W> > i;
  sc_out<sc_uint<W> > o;
  sc_uint<W> q;
  void run() {
    q = 0; o.write(0); wait();
    while (true) { q = i.read(); o.write(q); wait(); }
  }
  SC_CTOR(Stage) { SC_CTHREAD(run, clk.pos()); reset_signal_is(rst, true); }
};
SC_MODULE(Top) {
  sc_in<bool> clk, rst;
  sc_in<sc_uint<8> > x;
  sc_out<sc_uint<8> > y;
  sc_vector<sc_signal<sc_uint<8> > > s;
  Stage<8>* u[4];
  Stage<8>* pick;
  SC_CTOR(Top) : s(\"s\", 4) {
    for (int k = 0; k < 4; k++) {
      u[k] = new Stage<8>(\"u\");
      u[k]->clk(clk); u[k]->rst(rst); u[k]->i(x);
      if (k != 2) u[k]->o(s[k]);
    }
    pick = u[2];
    pick->o(y);
  }
};
";

pub const STAGES_TREE: &str = "(module Stage (int W) \
    (function run {(= q 0) o.write(0) wait (while true {(= q i.read()) o.write(q) wait})}) \
    (ctor Stage {(cthread run clk.pos()) (reset rst true)}) \
    (field (in bool) clk 0) (field (in bool) rst 0) (field (in (sc_uint W)) i 0) (field (out (sc_uint W)) o 0) \
    (field (sc_uint W) q 0)) \
    (module Top (ctor Top (init s text 4) {(for (local s32 k=0) (k < 4) (++ k) {(= u[k] (new (Stage 8) text)) \
    u[k]->clk(clk) u[k]->rst(rst) u[k]->i(x) (if (k != 2) u[k]->o(s[k]))}) (= pick u[2]) pick->o(y)}) \
    (field (in bool) clk 0) (field (in bool) rst 0) (field (in (sc_uint 8)) x 0) (field (out (sc_uint 8)) y 0) \
    (field (vector (signal (sc_uint 8))) s 0) (field (Stage 8) *u[4] 0) (field (Stage 8) *pick 0))";

/// A queue in two files; the second includes the first as `fifo.h`.
pub const QUEUE_HEADER: &str = "#ifndef FIFO_H
#define FIFO_H
#include <systemc.h>
#define DEPTH 16
SC_MODULE(Fifo) {
  sc_in<bool> clk, rst_n, put, get;
  sc_in<sc_uint<8> > din;
  sc_out<sc_uint<8> > dout;
  sc_out<bool> full, empty;
  sc_signal<sc_uint<5> > count;
  sc_uint<8> mem[DEPTH];
  sc_uint<4> rd, wr;
  void flags();
  void run();
  SC_CTOR(Fifo) {
    SC_METHOD(flags); sensitive << count;
    SC_CTHREAD(run, clk.pos());
    reset_signal_is(rst_n, false);
  }
};
#endif // FIFO_H
";

pub const QUEUE: &str = "#include \"fifo.h\"
void Fifo::flags() {
  full.write(count.read() == DEPTH);
  empty.write(count.read() == 0);
}
void Fifo::run() {
  rd = 0; wr = 0; count.write(0); dout.write(0);
  wait();
  while (true) {
    sc_uint<5> c = count.read();
    if (put.read() && c != DEPTH) { mem[wr] = din.read(); wr++; c++; }
    if (get.read() && count.read() != 0) { dout.write(mem[rd]); rd++; c--; }
    count.write(c);
    wait();
  }
}
";

pub const QUEUE_TREE: &str = "(module Fifo (function flags) (function run) \
    (ctor Fifo {(method flags) (sensitive count) (cthread run clk.pos()) (reset rst_n false)}) \
    (field (in bool) clk 0) (field (in bool) rst_n 0) (field (in bool) put 0) (field (in bool) get 0) \
    (field (in (sc_uint 8)) din 0) (field (out (sc_uint 8)) dout 0) (field (out bool) full 0) (field (out bool) empty 0) \
    (field (signal (sc_uint 5)) count 0) (field (sc_uint 8) mem[16] 0) (field (sc_uint 4) rd 0) (field (sc_uint 4) wr 0)) \
    (outside (Fifo) (function flags {full.write((count.read() == 16)) empty.write((count.read() == 0))})) \
    (outside (Fifo) (function run {(= rd 0) (= wr 0) count.write(0) dout.write(0) wait \
    (while true {(local (sc_uint 5) c=count.read()) \
    (if (put.read() && (c != 16)) {(= mem[wr] din.read()) (++ wr) (++ c)}) \
    (if (get.read() && (count.read() != 0)) {dout.write(mem[rd]) (++ rd) (-- c)}) \
    count.write(c) wait})}))";

/// A counter, whose text is cut in a test. Its first line ends behind its 20th byte, and its declarations begin at the 22nd.
pub const COUNTER: &str = "#include <systemc.h>
SC_MODULE(Count) {
  sc_in<bool> clk, rst;
  sc_out<sc_uint<8> > q;
  sc_uint<8> n;
  void run() { n = 0; q.write(0); wait(); while (true) { n++; q.write(n); wait(); } }
  SC_CTOR(Count) { SC_CTHREAD(run, clk.pos()); reset_signal_is(rst, true); }
};
";

/// Sources on one line, and their trees with the place of each node.
pub const PLACED: [(&str, &str); 10] = [
    (
        "const int x = a + b;",
        "10:(constant 0:const s32 x 14:(14:a 16:+ 18:b))",
    ),
    (
        "void f() { x.y[1]->z(2) = -a; }",
        "5:5:(function f {11:11:(24:= 11:11:x.13:y14:[15:1]->19:z20:(21:2) 26:(- 27:a))})",
    ),
    (
        "void f() { if ((a)) b(); else { ++c; d++; } }",
        "5:5:(function f {11:(if 16:a 20:20:20:20:b21:() 30:{32:32:(32:++ 34:c) 37:37:(38:++ 37:d)})})",
    ),
    (
        "void f() { switch (a) { case 1: ; default: return b ? c : (d, e); } }",
        "5:5:(function f {11:(switch 19:a 24:(case 29:1) 32:; 34:default 43:(return 50:(? 50:b 54:c 58:(concat 59:d 62:e))))})",
    ),
    (
        "void f() { const int *p = x, q[2]; x = new int(1); }",
        "5:5:(function f {11:(local 11:const s32 22:*p=26:x 29:q[31:2]) 35:35:(37:= 35:x 39:(new 43:s32 47:1))})",
    ),
    (
        "void f() { SC_CTHREAD(g, c.pos()); SC_METHOD(h); a(\"t\"); }",
        "5:5:(function f {11:(cthread 22:g 25:25:c.27:pos30:()) 35:(method 45:h) 49:49:49:49:a50:(51:text)})",
    ),
    (
        "void f() { x = static_cast<int>(y) + (int) z + int(w); }",
        "5:5:(function f {11:11:(13:= 11:x 15:(15:(cast 27:s32 32:y) 35:+ 37:(cast 38:s32 43:z) 45:+ 47:(cast 47:s32 51:w)))})",
    ),
    // a bracket is the place of what it begins, but not of what it holds
    (
        "void f() { (g)(); return (a) + b; }",
        "5:5:(function f {11:11:11:12:g14:() 18:(return 25:(26:a 29:+ 31:b))})",
    ),
    (
        "struct S { S(int k) : a(k) {} int a, *b; }; void S::f() {}",
        "7:(class S 11:11:(ctor S (13:s32 17:k) 22:(init a 24:k) {}) 34:(field 30:s32 34:a 1) 38:(field 30:s32 38:*b 1)) \
        49:(outside (S) 52:(function f {}))",
    ),
    (
        "template<int W = 8, class T = int> struct S {}; enum { A, B = 2 }; typedef S<1> R;",
        "42:(class S 13:(int W 17:8) 26:(class T :30:s32)) 48:(enum _ 55:A 58:B=62:2) 80:(typedef 75:(S 77:1) R)",
    ),
];
