//! Calls of decimals and what they answer.

/// A call, its text, and the units that are read or the number and the place of the fault.
pub const READINGS: &str = "\
coupon|0|units 0
coupon|4.125|units 41250000
coupon|0004.0000001|units 40000001
coupon|30|units 300000000
coupon|30.0000001|fault 4
fee|0|units 0
fee|0.1|units 100
fee|0.125|units 125
fee|10.000|units 10000
fee|10.001|fault 4
fee|0.1250|fault 3 5
fee|-0.1|fault 2 0
price|0|units 0
price|100|units 100000000
price|101.5|units 101500000
price|999.999999|units 999999999
price|1.1234567|fault 3 8
price|-1|fault 2 0
yield|-0|units 0
yield|4|units 40000
yield|-99.9999|units -999999
yield|999.9999|units 9999999
yield||fault 1
yield|x|fault 2 0
yield|+5|fault 2 0
yield|-|fault 2 1
yield|--5|fault 2 1
yield|5.|fault 2 2
yield|.5|fault 2 0
yield|-1.2.3|fault 2 4
yield|4.1234x|fault 2 6
yield|4.12345|fault 3 6
yield|1.12345|fault 3 6
yield|-4.12345x|fault 3 7
yield|1000|fault 4
yield|-100|fault 4
yield|99999999999999999999999999|fault 4
par|0025000|units 25000
par|1000000000|units 1000000000
par||fault 1
par|5.0|fault 2 1
par|-5|fault 2 0
par|0|fault 4
par|1000000001|fault 4
number|0|units 0
number|00000000000000000007|units 7
number|18446744073709551615|units 18446744073709551615
number|18446744073709551616|none
number|99999999999999999999|none
number|000000000000000000007|none
number||none
number|1x|none
number|-1|none
workers|0|none
workers|1|units 1
workers|16|units 16
workers|17|none";

/// A kind, units, and their text, or none if they are outside its range.
pub const TEXTS: &str = "\
coupon 300000000|30.0000000
coupon 300000001|none
coupon 50000000|5.0000000
price 0|0.000000
price 100000000|100.000000
price 1000000000|none
yield 0|0.0000
yield -5|-0.0005
yield 9999999|999.9999
yield 10000000|none
yield -999999|-99.9999
yield -1000000|none
yield3 0|0.000
yield3 -90000|-90.000
yield3 3023|3.023
price3 0|0.000
price3 7|0.007
price3 100235|100.235
price3 9223372036854775807|9223372036854775.807
fee 125|0.125
fee 10000|10.000
fee 10001|none
cents 31250|312.50
cents 0|0.00
par 25000|25000
par 1|1";

/// Figures in cents or thousandths: accrued interest is truncated to thousandths of a dollar and
/// then rounded.
pub const FIGURES: &str = "\
accrued coupon=4 par=10000 days=5 year=360 gives=556
accrued coupon=5.25 par=25000 days=47 year=360 gives=17135
accrued coupon=30 par=1000000000 days=720 year=360 gives=60000000000
accrued coupon=0.0000001 par=1 days=1 year=360 gives=0
accrued coupon=4 par=10000 days=182 year=365 gives=19945
accrued coupon=5.25 par=25000 days=47 year=365 gives=16901
accrued coupon=30 par=1000000000 days=720 year=365 gives=59178082192
accrued coupon=3.65 par=100 days=5 year=365 gives=5
truncated price=99.9999 gives=99999
rounded yield=4.0624 gives=4062
rounded yield=4.0625 gives=4063
rounded yield=-4.0624 gives=-4062
rounded yield=-4.0625 gives=-4063
rounded yield=-0.0004 gives=0
rounded yield=-0.0005 gives=-1
principal par=25000 price=100.725 gives=2518125
commission par=25000 fee=0.1 gives=2500
commission par=4 fee=0.124 gives=0
commission par=4 fee=0.125 gives=1
commission par=1000000000 fee=10 gives=10000000000";
