//! The four texts of the small base, which the tests of several crates read.
#![tactic(auto)]

/// Four macros, with the sizes and pins that a LEF of tools has at more length.
pub const LEF: &str = "VERSION 5.8 ;
MACRO INV
  SIZE 0.4 BY 2 ;
  PIN A DIRECTION INPUT ; USE SIGNAL ; END A
  PIN Y DIRECTION OUTPUT ; USE SIGNAL ; END Y
  PIN VDD DIRECTION INOUT ; USE POWER ; END VDD
  PIN VSS DIRECTION INOUT ; USE GROUND ; END VSS
END INV
MACRO NAND2
  SIZE 0.6 BY 2 ;
  PIN A DIRECTION INPUT ; USE SIGNAL ; END A
  PIN B DIRECTION INPUT ; USE SIGNAL ; END B
  PIN Y DIRECTION OUTPUT ; USE SIGNAL ; END Y
  PIN VDD DIRECTION INOUT ; USE POWER ; END VDD
  PIN VSS DIRECTION INOUT ; USE GROUND ; END VSS
END NAND2
MACRO AOI21
  SIZE 0.8 BY 2 ;
  PIN A DIRECTION INPUT ; USE SIGNAL ; END A
  PIN B DIRECTION INPUT ; USE SIGNAL ; END B
  PIN C DIRECTION INPUT ; USE SIGNAL ; END C
  PIN Y DIRECTION OUTPUT ; USE SIGNAL ; END Y
  PIN VDD DIRECTION INOUT ; USE POWER ; END VDD
  PIN VSS DIRECTION INOUT ; USE GROUND ; END VSS
END AOI21
MACRO DFF
  SIZE 1.6 BY 2 ;
  PIN D DIRECTION INPUT ; USE SIGNAL ; END D
  PIN CK DIRECTION INPUT ; USE CLOCK ; END CK
  PIN Q DIRECTION OUTPUT ; USE SIGNAL ; END Q
  PIN VDD DIRECTION INOUT ; USE POWER ; END VDD
  PIN VSS DIRECTION INOUT ; USE GROUND ; END VSS
END DFF
END LIBRARY
";

/// Two gates, a box, three spares, and one that is unplaced.
pub const DEF: &str = "VERSION 5.8 ;
DIVIDERCHAR \"/\" ;
BUSBITCHARS \"[]\" ;
DESIGN top ;
UNITS DISTANCE MICRONS 1000 ;
DIEAREA ( 0 0 ) ( 20000 20000 ) ;
COMPONENTS 7 ;
- u1 NAND2 + PLACED ( 1000 1000 ) N ;
- u2 INV + PLACED ( 3000 1000 ) N ;
- r1 DFF + PLACED ( 5000 1000 ) N ;
- SP_1 NAND2 + FIXED ( 2000 2000 ) N ;
- SP_2 NAND2 + FIXED ( 8000 2000 ) N ;
- SP_3 AOI21 + FIXED ( 6000 2000 ) N ;
- SP_4 NAND2 + UNPLACED ;
END COMPONENTS
PINS 4 ;
- a + NET a + DIRECTION INPUT + USE SIGNAL ;
- b + NET b + DIRECTION INPUT + USE SIGNAL ;
- ck + NET ck + DIRECTION INPUT + USE CLOCK ;
- q + NET q + DIRECTION OUTPUT + USE SIGNAL ;
END PINS
SPECIALNETS 2 ;
- VDD ( * VDD ) + USE POWER ;
- VSS ( * VSS ) ( SP_1 A ) ( SP_1 B ) ( SP_2 A ) ( SP_2 B ) ( SP_3 A ) ( SP_3 B ) ( SP_3 C ) + USE GROUND ;
END SPECIALNETS
NETS 6 ;
- a ( PIN a ) ( u1 A ) ;
- b ( PIN b ) ( u1 B ) ;
- ck ( PIN ck ) ( r1 CK ) ;
- n1 ( u1 Y ) ( u2 A ) + ROUTED M1 ( 1000 1000 ) ( 3000 * ) ;
- n2 ( u2 Y ) ( r1 D ) ;
- q ( r1 Q ) ( PIN q ) ;
END NETS
END DESIGN
";

/// The functions of its three gates.
pub const FUNCTIONS: &str = "[INV]
inputs = [\"A\"]
outputs = { Y = \"10\" }

[NAND2]
inputs = [\"A\", \"B\"]
outputs = { Y = \"1110\" }

[AOI21]
inputs = [\"A\", \"B\", \"C\"]
outputs = { Y = \"!((A & B) | C)\" }
";

/// Its tie nets, and how spares are named.
pub const DESK: &str = "tie_high = \"VDD\"
tie_low = \"VSS\"
spares = [\"SP_\"]
";
