//! Worked texts, of which some are in parts.
const RESET: &str = "module R (
  input logic clk,
  input logic rst,
  output logic [7:0] q
);
  logic [7:0] q$$n;
  logic \\output ;
  always_comb begin
    q$$n = q;
    \\output  = 1'h0;
    case (q[1:0])
      2'h0: begin
        q$$n = ((q < 8'h07) ? (q + 8'h01) : {q[7], 7'h00});
      end
      2'h1: begin
      end
    endcase
    if ((!rst)) begin
      q$$n[3] = 1'((q >>> 2'h2));
    end else begin
      q$$n = $unsigned(($signed(q) / $signed(8'h03)));
    end
  end
  always_ff @(posedge clk or negedge rst) begin
    if ((!rst)) begin
      q <= 8'h05;
    end else begin
      q <= q$$n;
    end
  end
endmodule
";

/// The method of two inputs, up to its output's name.
pub const AND_PORTS: &str = "module And (
  input logic [7:0] a,
  input logic [7:0] b,
  output logic [7:0] ";

/// From there up to its statements.
pub const AND_NAMES: &str = "y
);
  always_comb begin
";

/// The first of its statements.
pub const AND_ZERO: &str = "    y = 8'h00;
";

/// The rest of it.
pub const AND_BOTH: &str = "    y = 8'((64'(a) & 64'(b)));
  end
endmodule
";

/// The counter, up to the base of its first literal of 8 bits.
pub const COUNT_FRONT: &str = "module Count (
  input logic clk,
  input logic rst,
  output logic [7:0] q
);
  logic [7:0] q$$n;
  logic [7:0] n;
  logic [7:0] n$$n;
  logic run$$state;
  logic run$$state$$n;
  always_comb begin
    q$$n = q;
    n$$n = n;
    run$$state$$n = run$$state;
    if (rst) begin
      n$$n = 8'";

/// The base and the digits of that literal.
pub const COUNT_ZERO: &str = "h00";

/// The rest of it.
pub const COUNT_REST: &str = ";
      q$$n = 8'h00;
      run$$state$$n = 1'h0;
    end else begin
      case (run$$state)
        1'h0: begin
          n$$n = 8'((64'(n$$n) + 64'h0000000000000001));
          q$$n = n$$n;
          run$$state$$n = 1'h1;
        end
        1'h1: begin
          n$$n = 8'((64'(n$$n) + 64'h0000000000000001));
          q$$n = n$$n;
          run$$state$$n = 1'h1;
        end
      endcase
    end
  end
  always_ff @(posedge clk) begin
    q <= q$$n;
    n <= n$$n;
    run$$state <= run$$state$$n;
  end
endmodule
";

/// The parts of the counter.
pub const COUNT: [&str; 3] = [COUNT_FRONT, COUNT_ZERO, COUNT_REST];

const WORD: &str = "module R (
  output logic \\output ,
  input logic a_,
  input logic _a
);
  always_comb begin
    \\output  = 1'h0;
    \\output  = (32'(a_) != 32'(_a));
  end
endmodule
";

const ARRAY: &str = "module M (
  input logic [1:0] i$$n,
  input logic [7:0] m$0$$n,
  input logic [7:0] m$1$$n,
  input logic [7:0] m$2$$n,
  output logic [7:0] y
);
  always_comb begin
    y = ((i$$n < 2'h3) ? ((i$$n < 2'h1) ? m$0$$n : ((i$$n < 2'h2) ? m$1$$n : m$2$$n)) : 8'h00);
  end
endmodule
";

/// Registers with a reset, up to the name of the first next value.
pub const EDGE_PORTS: &str = "module R (
  input logic clk,
  input logic rst,
  output logic [7:0] q
);
  logic [7:0] ";

/// From there up to the blocks.
pub const EDGE_NAMES: &str = "q$$n;
  logic run$$state;
  logic run$$state$$n;
";

/// The block that gives the next values.
pub const EDGE_VALUES: &str = "  always_comb begin
    q$$n = q;
    run$$state$$n = run$$state;
  end
";

/// The rest of it, which takes them.
pub const EDGE_SETS: &str = "  always_ff @(posedge clk or posedge rst) begin
    if (rst) begin
      q <= 8'h05;
      run$$state <= 1'h0;
    end else begin
      q <= q$$n;
      run$$state <= run$$state$$n;
    end
  end
endmodule
";

/// Texts in which nothing is wrong.
pub const WORKED: [&[&str]; 6] = [
    &[RESET],
    &[AND_PORTS, AND_NAMES, AND_ZERO, AND_BOTH],
    &COUNT,
    &[WORD],
    &[ARRAY],
    &[EDGE_PORTS, EDGE_NAMES, EDGE_VALUES, EDGE_SETS],
];
